ghost use Rattle.std.specs.Prelude.{◌≡◌, IfOk, OnErr};
ghost use Rattle.lore_db.specs.States.{Performs, new_state};
ghost use Rattle.lorel_trees.specs.Trees.{statement_tree};
ghost use Rattle.lorel_trees.specs.Sound.{IsSound};
ghost use Rattle.lore_run.specs.Reads.{StatementReads};

use lore_base::{NoMemory, Steps};
use lore_db::{Db, Reply};
use lorel_trees::Statement;
use std::alloc::Global;
use std::marker::Model;
use std::sync::ledger::Ledger;

/// What a run keeps from one statement to the next: its database, and the history, the blocks and the
/// views that are kept of it. Contracts see the state of these, whether blocks are kept, and which
/// views are fresh.
#[derive(Drop)]
pub struct Session {
    db: Db,
}

impl Model for Session {
    ghost use Rattle.std.specs.Coded.{codes};
    ghost use Rattle.lore_db.specs.States.{Kept};
    ghost use Rattle.lore_db.specs.Codes.{path_code, cond_code};

    ghost Value = { Kept };

    ghost coded = { Prim.hlevel (
      codes,
      path_code (Prim.hlevel codes),
      cond_code (Prim.hlevel (codes, path_code (Prim.hlevel codes))),
    ) };

    ghost view = { λ s. s.db };
}

impl Session {
    /// A session over the new database, of which no history, no blocks and no view are kept.
    pub fn new(alloc: Global) -> Result<Session, NoMemory>
        ensures { IfOk result (λ session. session.state ≡ new_state) }
    {
        Ok(Session {
            db: Db::new(alloc)?,
        })
    }

    /// The database that the session keeps. Takes no memory.
    pub fn db(&self) -> &Db
        ensures { result.now ≡ self.now }
    {
        &self.db
    }

    /// Executes a statement. A refusal, and want of memory, leave the state as it was. No more is read
    /// than the bounds of the statement, where it has any.
    pub(crate) fn execute<L: Ledger>(
        &mut self,
        alloc: Global,
        statement: &Statement,
        steps: &mut Steps<L>,
    ) -> Result<Reply, NoMemory>
        requires { IsSound (statement_tree statement.now) }
        ensures ok { IfOk result (λ reply.
            Performs self.old.state (statement_tree statement.now) reply self.new.state) }
        ensures err { OnErr result (self.new ≡ self.old) }
        ensures read { let tree = statement_tree statement.now in IfOk result (λ reply.
            StatementReads self.old.state tree reply steps.old steps.new) }
    {
        self.db.execute(alloc, statement, steps)
    }
}

#[cfg(test)]
mod tests;
