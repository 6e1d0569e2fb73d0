//! The identification, the first 16 bytes of a file: System V gABI, "ELF Identification".
ghost use Rattle.std.specs.Prelude.{◌≡◌, ◌≤◌, ◌++◌, length, take, drop};
ghost use Rattle.goblin_headers.specs.Header.{new_ident, order_named};

use crate::constants_header::{
    EI_CLASS, EI_DATA, EI_VERSION, ELFCLASS32, ELFCLASS64, ELFDATA2LSB, ELFDATA2MSB, ELFMAG,
    EV_CURRENT, SELFMAG, SIZEOF_IDENT,
};
use goblin_base::container::{BE, Container, Ctx, Endian, LE};

/// Returns the byte order that a data byte names.
pub(crate) fn order_of(byte: u8) -> Option<Endian>
    ensures { result ≡ order_named byte }
{
    match byte {
        ELFDATA2LSB => Some(LE),
        ELFDATA2MSB => Some(BE),
        _ => None,
    }
}

/// Returns the identification at the start of the bytes.
pub(crate) fn ident_of(bytes: &[u8]) -> [u8; SIZEOF_IDENT]
    requires { SIZEOF_IDENT ≤ length bytes.now }
    ensures { result ≡ take SIZEOF_IDENT bytes.now }
{
    let mut ident = [0; SIZEOF_IDENT];
    ident.copy_from_slice(&bytes[..SIZEOF_IDENT]);
    ident
}

/// Writes an identification at the start of the bytes.
pub(crate) fn put_ident(bytes: &mut [u8], ident: &[u8; SIZEOF_IDENT])
    requires { SIZEOF_IDENT ≤ length bytes.old }
    ensures written { bytes.new ≡ ident.now ++ drop SIZEOF_IDENT bytes.old }
    ensures size { length ident.now ≡ SIZEOF_IDENT }
{
    bytes[..SIZEOF_IDENT].copy_from_slice(ident);
}

/// Returns the identification of a new file in this context.
pub(crate) fn new_ident(ctx: Ctx) -> [u8; SIZEOF_IDENT]
    ensures { result ≡ new_ident ctx }
{
    let mut ident = [0; SIZEOF_IDENT];
    ident[..SELFMAG].copy_from_slice(ELFMAG);
    ident[EI_CLASS] = match ctx.container {
        Container::Little => ELFCLASS32,
        Container::Big => ELFCLASS64,
    };
    ident[EI_DATA] = match ctx.le {
        Endian::Little => ELFDATA2LSB,
        Endian::Big => ELFDATA2MSB,
    };
    ident[EI_VERSION] = EV_CURRENT;
    ident
}
