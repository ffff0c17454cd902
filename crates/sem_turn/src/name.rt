use std::marker::Brand;

/// The name of a run. It stands for one table and one setup; the type of every value with the name
/// keeps them.
pub trait RunName {
    ghost use Rattle.atomic_table.specs.Seated.{TableId};
    ghost use Rattle.sem_msg.specs.Setup.{Setup};

    ghost table: { TableId };

    ghost setup: { Setup };
}

impl RunName for Brand {
    ghost use Rattle.sem_turn.specs.Names.{no_table, no_setup};

    ghost table = { no_table };

    ghost setup = { no_setup };
}
