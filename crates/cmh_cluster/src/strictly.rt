//! A cluster that begins only where the process may have the descriptors that all sites need.

ghost use Rattle.std.specs.Prelude.{◌≡◌};
ghost use Rattle.cmh_console.specs.Status.{IsStatus};
ghost use Rattle.cmh_cluster.specs.Descriptors.{StrictlyEnds};

use crate::cluster::{ClusterEnd, ClusterStart, run_cluster_counting};
use crate::descriptors::{allowed_descriptors, shortage_of};
use cmh_carriers::Voice;
use cmh_console::Output;
use cmh_host::System;
use std::fs::File;
use std::io::Write;
use std::rt::Files;

/// Runs all sites of a topology as [`run_cluster_counting`](crate::run_cluster_counting) does, but starts none where the process
/// may have fewer descriptors than they need. Then it names both numbers on `err`, and the status is 1. It is 1 too
/// where all else ended well and a link could not be opened.
pub fn run_cluster_strictly<R, W: Write, E: Write, V>(
    rt: R,
    start: &ClusterStart<'_>,
    out: &mut Output<W>,
    err: &mut Output<E>,
    voice: Option<V>,
) -> ClusterEnd
where
    R: System + Files<File = File> + AllocGlobal + Send + 'static,
    V: Voice + Send + Drop + 'static,
    ensures status { IsStatus result.status }
    ensures ends { StrictlyEnds start.now.topology.now start.now.script.now out.old out.new err.old err.new
        result.status result.unopened }
    ensures opened { result.status ≡ 0 → result.unopened ≡ 0 }
{
    let allowed = allowed_descriptors().unwrap_or(u64::MAX);
    if let Ok(Some(shortage)) = shortage_of(rt.alloc(), start.topology, allowed) {
        let _ = err.write_line(shortage);
        return ClusterEnd {
            status: 1,
            unopened: 0,
        };
    }
    let end = run_cluster_counting(rt, start, out, err, voice);
    if end.status == 0 && end.unopened > 0 {
        ClusterEnd { status: 1, ..end }
    } else {
        end
    }
}
