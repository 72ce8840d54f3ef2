//! Operations without operands.
use super::{bare, comes_to, flagged, loaded, words};
use m386_base::number::Width::{W16, W32};
use m386_opmap::name::Name;

#[test]
fn flags(rt: HostRuntime) {
    let p = bare();
    for (name, before, after) in [
        (Name::Clc, 3, 2),
        (Name::Stc, 2, 3),
        (Name::Cmc, 3, 2),
        (Name::Cmc, 2, 3),
        (Name::Cld, 0x4402, 0x4002),
        (Name::Std, 2, 0x402),
        // AH is A2h: SF alone.
        (Name::Sahf, 0xfd7, 0xf82),
    ] {
        comes_to(
            &rt,
            words(name, W32, &[]),
            &flagged(&p, before),
            &[],
            Ok(flagged(&p, after)),
        );
    }
    let set = flagged(&p, 0xfd7);
    comes_to(
        &rt,
        words(Name::Lahf, W32, &[]),
        &set,
        &[],
        Ok(loaded(&set, 0, 0xa0a1_d7a3)),
    );
    comes_to(&rt, words(Name::Nop, W32, &[]), &set, &[], Ok(set));
}

#[test]
fn signs(rt: HostRuntime) {
    let p = bare();
    comes_to(
        &rt,
        words(Name::Cwde, W32, &[]),
        &p,
        &[],
        Ok(loaded(&p, 0, 0xffff_a2a3)),
    );
    comes_to(
        &rt,
        words(Name::Cwde, W16, &[]),
        &p,
        &[],
        Ok(loaded(&p, 0, 0xa0a1_ffa3)),
    );
    comes_to(
        &rt,
        words(Name::Cdq, W32, &[]),
        &p,
        &[],
        Ok(loaded(&p, 2, 0xffff_ffff)),
    );
    let positive = loaded(&p, 0, 0xa0a1_0203);
    comes_to(
        &rt,
        words(Name::Cdq, W16, &[]),
        &positive,
        &[],
        Ok(loaded(&positive, 2, 0xd0d1_0000)),
    );
}
