//! The law of a member that is handed over.
ghost use Rattle.sc_group_parts.specs.transactions.MigrationLaws.{MigrationsKeepAll};

/// States that handing over a member changes no arc, no pair and no client table, and that the
/// node is then a member of the second group and not of the first.
pub fn migrations_keep_all()
    ensures { MigrationsKeepAll }
{}
