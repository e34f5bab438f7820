//! Duplicate connection ids.
ghost use Rattle.std.specs.Prelude.{◌≡◌, ◌≤◌, ◌+◌, drop, length, IfSome};
ghost use Rattle.param_load.specs.SameConn.{place_of, same_conn};

/// The place of an id in a list, counted from 1, where the places before `from` don't count.
fn place_of(ids: &[u16], id: u16, from: usize) -> Option<usize>
    requires { from ≤ length ids.now }
    ensures value { result ≡ place_of id (from + 1) (drop from ids.now) }
    ensures within { IfSome result (λ n. n ≤ length ids.now) }
{
    for at in from..ids.len() {
        if ids[at] == id {
            return Some(at + 1);
        }
    }
    None
}

/// Returns the first position, counted from 1, whose id occurs again later, and the position of its next occurrence.
/// None if all ids differ. There are at most 65,535.
pub fn same_conn(ids: &[u16]) -> Option<(u16, u16)>
    requires { length ids.now ≤ 65535 }
    ensures { result ≡ same_conn 1 ids.now }
{
    for at in 0..ids.len() {
        let id = ids[at];
        if let Some(b) = place_of(ids, id, at + 1) {
            return Some((at as u16 + 1, b as u16));
        }
    }
    None
}
