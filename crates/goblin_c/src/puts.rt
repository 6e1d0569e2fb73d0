//! Records that are put where the call that reads one finds it, if they fit. Then their bytes change, and no other.
ghost use Rattle.goblin.specs.Steps.{refuse_as};
ghost use Rattle.goblin_c.specs.Puts.{put_at, put_if_there, with_bytes};
ghost use Rattle.goblin_c.specs.Results.{Stored, refusal_at};
ghost use Rattle.std.specs.Prelude.{Ok, Some, length, ◌*◌, ◌+◌, ◌≡◌, ◌≤◌};

use crate::misfit::Misfit;
use crate::results::{END, GoblinRefusal, OK, Result, refuse};
use goblin_base::laid_out::LaidOut;

// Writes a record at an offset.
fn put_record<R: LaidOut<C>, C: Copy>(bytes: &mut [u8], place: usize, own: R, ctx: C)
    requires { place + (R.layout ctx).size ≤ length bytes.old }
    ensures { bytes.new ≡ with_bytes bytes.old place ((R.layout ctx).image own) }
{
    own.put(&mut bytes[place..], ctx);
}

// Puts a record at an index of a list that starts at an offset, if a call that reads found one there and no value is a
// misfit. Returns the status.
pub fn put_found<T: Drop, R: LaidOut<C>, C: Copy>(
    bytes: &mut [u8],
    found: Result<Option<T>>,
    start: u64,
    index: u64,
    own: R,
    ctx: C,
    misfit: Option<Misfit>,
    why: &mut GoblinRefusal,
) -> u32
    requires { (x : T) → found ≡ Ok (Some x)
        → start + index * (R.layout ctx).size + (R.layout ctx).size ≤ length bytes.old }
    ensures { let put = put_at (R.layout ctx) bytes.old start index own misfit in
        Stored (put_if_there (refuse_as refusal_at found) put) bytes.old why.old result bytes.new why.new }
{
    match found {
        Ok(Some(_)) => {
            let place = start as usize + index as usize * R::size_in(ctx);
            if let Some(misfit) = misfit {
                return misfit.refuse_at(place as u64, why);
            }
            put_record(bytes, place, own, ctx);
            OK
        }
        Ok(None) => END,
        Err(e) => refuse(&e, why),
    }
}
