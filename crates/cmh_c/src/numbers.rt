//! Numbers that are written to what C lends.

ghost use Rattle.std.specs.Prelude.{◌≡◌, ◌++◌, drop, length, take};

use cmh_frames::ProcId;

/// Writes processes over the first of `out`; where there is room for fewer, the others are left out.
pub fn put_processes(processes: &[ProcId], out: &mut [u16])
    ensures { out.new ≡ take (length out.old) processes.now ++ drop (length processes.now) out.old }
{
    let count = processes.len().min(out.len());
    for place in 0..count {
        out[place] = processes[place].get();
    }
}
