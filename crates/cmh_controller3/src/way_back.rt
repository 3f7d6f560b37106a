//! The way back from a step that was carried out.

ghost use Rattle.std.specs.Prelude.{ℕ, Option, IfOk};
ghost use Rattle.cmh_controller3.specs.Controller as spec;
ghost use Rattle.cmh_controller3.specs.Steps.{IsBackAt, Prepares, WasPrepared, process_in};
ghost use Rattle.cmh_controller3.specs.WaysBack.{IsAfter, LeadsBack};

use crate::controller::Controller;
use crate::outcome::Declaration;
use crate::prepared::{Before, Prepared};
use crate::rows::Rows;
use cmh_model3::Event;
use std::alloc::{AllocError, Global};

/// What a controller needs to go back to before a step that was carried out: what stood at the places that the step wrote.
/// It holds rows of one process, and never a table.
#[derive(Drop)]
pub struct WayBack {
    /// What stood before the first half.
    pub(crate) before: Before,
    /// Whom the first half declared.
    pub(crate) declared: Option<Declaration>,
    /// What stood between the halves.
    pub(crate) rows: Rows,
}

impl Controller {
    /// What it will take to go back from after the step that was prepared. It is asked for between the halves, and leaves
    /// the step to be carried out or taken back. The only error is out of memory.
    pub fn way_back(
        &self,
        alloc: Global,
        event: &Event,
        prepared: &Prepared,
    ) -> Result<WayBack, AllocError>
        requires { WasPrepared event.now prepared.now self.now }
        ensures { IfOk result (λ way. (old : spec.Controller) → Prepares old event.now prepared.now self.now
            → LeadsBack old event.now (process_in prepared.now.outcome.declared) way) }
    {
        let _ = &self.site;
        Ok(WayBack {
            before: prepared.before.copy(alloc)?,
            declared: prepared.outcome.declared,
            rows: self.rows(alloc, event)?,
        })
    }

    /// Goes back to before a step that was carried out, of this event. Steps after it were undone before, the last one
    /// first. It takes no memory, and cannot fail.
    pub fn undo(&mut self, event: &Event, way: WayBack)
        requires { (old : spec.Controller) × (declared : Option ℕ)
            × LeadsBack old event.now declared way × IsAfter old event.now declared self.old }
        ensures { (old : spec.Controller) (declared : Option ℕ) → LeadsBack old event.now declared way
            → IsAfter old event.now declared self.old → IsBackAt old self.new }
    {
        let WayBack {
            before,
            declared,
            rows,
        } = way;
        self.put_rows(rows);
        self.give_up(event, before, declared);
    }
}
