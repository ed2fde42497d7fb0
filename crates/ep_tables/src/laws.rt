//! A law: what a step needs is there where the step can be made.
ghost use Rattle.std.specs.Prelude.{◌≡◌, List, None};
ghost use Rattle.ep_defs.specs.declared.event.EventDef.{EventDef};
ghost use Rattle.ep_model.specs.declared.step.Step.{Step};
ghost use Rattle.ep_model.specs.History.{Past};
ghost use Rattle.ep_model.specs.Lawful.{objection_to};
ghost use Rattle.ep_tables.specs.declared.tables.Tables.{Tables};
ghost use Rattle.ep_tables.specs.Can.{CanMake};
ghost use Rattle.ep_tables.specs.Tables.{TablesFollow};

use ep_model::laws::a_budget_can_be_counted;

/// A step against which nothing stands finds what it needs in tables that stand for the steps before it.
pub fn what_a_step_needs_is_there()
    ensures { (events : List EventDef) (past : Past) (tables : Tables) (step : Step)
        → TablesFollow events past tables → objection_to events past step ≡ None → CanMake step tables }
{
    a_budget_can_be_counted();
}
