// A drill's whole script, run at once over a store of its own.
#![tactic(auto)]

ghost use Rattle.std.specs.Prelude.{unwrap_or};
ghost use Rattle.run_script.specs.Script.{ScriptRun, not_all};

use answers::has_room;
use drill_run::{STORE_ROOM, feed};
use drill_state::{Progress, finish};

// Runs the script from its beginning, and prints its answers from the start of `out` on. Gives how many bytes were printed,
// or nothing where `out` has no room for all: it stops at a line that has not 72 bytes left.
pub fn run(script: &[u8], out: &mut [u8]) -> Option<usize>
    ensures { ScriptRun script.now out.new (unwrap_or result not_all) }
{
    let mut room = [0u8; STORE_ROOM];
    let fed = feed(script, Progress::start(), &mut room[..store::LENGTH], out);
    let at = fed.at;
    let last = fed.progress;
    if fed.next < script.len() {
        return None;
    }
    let pending = last.pending;
    if pending.len == 0 {
        return Some(at);
    }
    if !has_room(out, at) {
        return None;
    }
    Some(at + finish(last, &mut out[at..]))
}
