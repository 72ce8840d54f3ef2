//! The order of the rows: of two that are false, the earlier one is told, and nothing of the later one is seen. Each kind is tried by
//! itself, and an event with EXT.
use super::rows::{CASES, end_of, fails, meets};
use super::{WAYS, changed, sound};

#[test]
fn the_earlier_of_each_two_is_told(rt: HostRuntime) {
    for way in WAYS {
        for (at, (name, change, told, tail, usable)) in CASES.iter().copied().enumerate() {
            if meets(told.0, way) && (way.direct || way.ext) {
                for (_, later, _, _, _) in CASES.iter().copied().skip(at + 1) {
                    let w = changed(&changed(&sound(way.kind), later), change);
                    fails(&rt, name, &w, way, &end_of(told, tail, usable));
                }
            }
        }
    }
}
