//! Cases with their results: options.
use crate::compare::is;
use crate::record::is_apart;
use goblin_base::options::{ParseMode, ParseOptions};

// The mode of options, and whether it is permissive.
fn mode(options: ParseOptions) -> (ParseMode, bool) {
    (options.parse_mode, options.parse_mode.is_permissive())
}

#[test]
fn makes_options(rt: HostRuntime) {
    assert!(rt; is(rt, mode(ParseOptions::new()), (ParseMode::Strict, false)));
    let default = mode(ParseOptions::default());
    assert!(rt; is(rt, default, (ParseMode::Strict, false)));
    assert!(rt; is(rt, mode(ParseOptions::strict()), (ParseMode::Strict, false)));
}

#[test]
fn makes_permissive_options(rt: HostRuntime) {
    let permissive = mode(ParseOptions::permissive());
    assert!(rt; is(rt, permissive, (ParseMode::Permissive, true)));
    let options = ParseOptions::strict().with_parse_mode(ParseMode::Permissive);
    assert!(rt; is(rt, mode(options), (ParseMode::Permissive, true)));
}

#[test]
fn compares_options(rt: HostRuntime) {
    assert!(rt; is_apart(rt, &ParseMode::Permissive, &[ParseMode::Strict]));
    assert!(rt; is_apart(rt, &ParseOptions::permissive(), &[ParseOptions::strict()]));
    assert!(rt; is(rt, ParseMode::default(), ParseMode::Strict));
    assert!(rt; is(rt, ParseOptions::default(), ParseOptions::strict()));
}
