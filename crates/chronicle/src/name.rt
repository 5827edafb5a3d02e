//! Which chronicle it is.
use crossbeam_queue::Pass;
use std::marker::Model;

/// Which chronicle it is, where a type of code has to say so. Contracts see that alone, and no value of it is made.
pub struct Name {
    of: Pass<(), bool>,
}

impl Model for Name {
    ghost use Rattle.atomic_table.specs.Seated.{TableId, table_id_coded};

    ghost Value = { TableId };

    ghost coded = { table_id_coded };

    ghost view = { λ n. n.of.table_id };
}
