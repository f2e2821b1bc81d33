ghost use Rattle.std.specs.Prelude.{◌≡◌, IfOk, IfErr, OnErr};
ghost use Rattle.lore_base.specs.Databases.{IsValid};
ghost use Rattle.lore_base.specs.Verdicts.{IsToldBy};
ghost use Rattle.lorel_trees.specs.Trees.{select_tree, blocks as asking, blocks_of};
ghost use Rattle.lorel_ranges.specs.Texts.{IsShallow};
ghost use Rattle.lore_db.specs.Types.{Rows as TheRows};
ghost use Rattle.statements.specs.Blocks.{AreBlocksIn};
ghost use Rattle.statements.specs.Statements.{Cause, cause_order, Executes};
ghost use Rattle.statements.specs.Stops.{told, OnReply};
ghost use Rattle.statements.specs.Uncounted.{IsPlainSelect};
ghost use Rattle.lore_db.specs.States.{Performs, StateCause, state_order};
ghost use Rattle.lore_db.specs.States.{BlocksTellAll, blocked_then};
ghost use Rattle.lore_db.specs.Freshness.{KeepsFresh};

use crate::db::Db;
use block_lines::block_lines;
use kept_history::live_objects;
use lore_base::{NoMemory, Steps};
use lore_store::Store;
use lorel_trees::Select;
use one_index::{BlockPaths, Blocks};
use statements::{Answer, Reply, Stop, select_by};
use std::alloc::Global;
use std::sync::ledger::Ledger;

impl Db {
    /// The lines of the blocks, which are kept from then on. No step is counted where they are
    /// already.
    pub(crate) fn show_blocks<L: Ledger>(
        &mut self,
        alloc: Global,
        steps: &mut Steps<L>,
    ) -> Result<Reply, Stop>
        ensures ok { IfOk result (λ reply. Performs self.old.state asking reply self.new.state) }
        ensures refused { IfErr result (λ stop.
            IsToldBy (StateCause self.old.state asking) state_order (told stop)) }
        ensures fresh { IfOk result (λ reply. KeepsFresh self.old asking reply self.new) }
        ensures blocked { IfOk result (λ reply.
            self.new.blocked ≡ blocked_then self.old.blocked asking reply) }
        ensures same { OnErr result (self.new ≡ self.old) }
        ensures unread { BlocksTellAll self.old asking → steps.new ≡ steps.old }
    {
        if let Some(blocks) = &self.blocks {
            return Ok(Reply::Lines(block_lines(alloc, blocks)?));
        }
        let blocks = built(alloc, &self.store, steps)?;
        let lines = block_lines(alloc, &blocks)?;
        self.blocks = Some(blocks);
        Ok(Reply::Lines(lines))
    }

    /// Selects rows by what the blocks tell, which are kept from then on. No step is counted where
    /// they are already, and there is at most one range, no condition, and no cell that shows a
    /// word.
    pub(crate) fn select_blocks<L: Ledger>(
        &mut self,
        alloc: Global,
        query: &Select,
        steps: &mut Steps<L>,
    ) -> Result<Reply, Stop>
        requires { IsShallow (select_tree query.now) }
        ensures ok { let asked = blocks_of (select_tree query.now) in
            IfOk result (λ reply. Performs self.old.state asked reply self.new.state) }
        ensures refused { let asked = blocks_of (select_tree query.now) in
            let cause = StateCause self.old.state asked in
            IfErr result (λ stop. IsToldBy cause state_order (told stop)) }
        ensures fresh { let asked = blocks_of (select_tree query.now) in
            IfOk result (λ reply. KeepsFresh self.old asked reply self.new) }
        ensures blocked { IfOk result (λ reply. self.new.blocked
            ≡ blocked_then self.old.blocked (blocks_of (select_tree query.now)) reply) }
        ensures same { OnErr result (self.new ≡ self.old) }
        ensures unread { OnReply result
            (BlocksTellAll self.old (blocks_of (select_tree query.now)) → steps.new ≡ steps.old) }
    {
        if let Some(blocks) = &self.blocks {
            return Ok(Reply::Rows(rows_by(alloc, &self.store, blocks, query, steps)?));
        }
        let blocks = built(alloc, &self.store, steps)?;
        let rows = rows_by(alloc, &self.store, &blocks, query, steps)?;
        self.blocks = Some(blocks);
        Ok(Reply::Rows(rows))
    }
}

// The rows of a select by what the blocks tell of its paths.
fn rows_by<L: Ledger>(
    alloc: Global,
    store: &Store,
    blocks: &Blocks,
    query: &Select,
    steps: &mut Steps<L>,
) -> Result<Answer, Stop>
    requires shallow { IsShallow (select_tree query.now) }
    requires valid { IsValid store.now.db }
    requires blocks { AreBlocksIn store.now.db blocks.now }
    ensures ok { let db = store.now.db in IfOk result (λ answer.
        Executes db (blocks_of (select_tree query.now)) (TheRows answer) db) }
    ensures refused { let tree = blocks_of (select_tree query.now) in
        IfErr result (λ stop. IsToldBy (Cause store.now.db tree) cause_order (told stop)) }
    ensures quiet { OnReply result (IsPlainSelect store.now.db (select_tree query.now)
        → steps.new ≡ steps.old) }
{
    let paths = BlockPaths::new(blocks, store.labels());
    select_by(alloc, store, &paths, query, steps)
}

// The blocks of the database. Each object's edges are read once each way.
fn built<L: Ledger>(alloc: Global, store: &Store, steps: &mut Steps<L>) -> Result<Blocks, NoMemory>
    ensures { IfOk result (AreBlocksIn store.now.db) }
{
    let graph = store.graph();
    let objects = live_objects(alloc, graph)?;
    Blocks::build(alloc, graph, store.links(), &objects, graph.names(), steps)
}
