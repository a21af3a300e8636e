use std::marker::Brand;

/// Names the table of one board. Contracts alone see it.
pub trait Room {
    ghost use Rattle.atomic_table.specs.Seated.{TableId};

    ghost table: { TableId };
}

impl Room for Brand {
    ghost use Rattle.cove_monitor.specs.Seats.{no_table};

    ghost table = { no_table };
}
