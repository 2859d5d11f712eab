ghost use Rattle.std.specs.Prelude.{◌≡◌, ◌++◌, List, OnOk};
ghost use Rattle.il_base.specs.declared.world_model.record.AsmRec.{AsmRec};
ghost use Rattle.descriptor_file.specs.declared.root.Root.{Root};
ghost use Rattle.rules.specs.mark_rules.Attributes.{attribute_needs};
ghost use Rattle.rules.specs.mark_rules.Dependencies.{dependency_needs};
ghost use Rattle.rules.specs.mark_rules.FlowMarks.{flow_marks};
ghost use Rattle.rules.specs.mark_rules.Roots.{start_facts, waiting_facts};

use il_base::{Item, NoMemory};
use mark_parts::mark_facts::facts::Facts;
use rules::link_rules::RowAt;
use std::alloc::Global;

/// The rules of marking on attributes, dependencies, descriptors and the flow of values, for a world and elements of descriptors.
pub trait NamedRules {
    // the assemblies of the world
    ghost recs_of: { Self → List AsmRec };

    // the elements of descriptors
    ghost roots_of: { Self → List Root };

    /// Adds the needs of the attributes of a marked item (II.22.10).
    fn add_attributes(&self, alloc: Global, item: Item, facts: &mut Facts) -> Result<(), NoMemory>
        ensures { OnOk result (facts.new ≡ facts.old ++ attribute_needs (recs_of self.now) item) };

    /// Adds the needs of the dependencies of a marked item.
    fn add_dependencies(&self, alloc: Global, item: Item, facts: &mut Facts) -> Result<(), NoMemory>
        ensures { OnOk result (facts.new ≡ facts.old ++ dependency_needs (recs_of self.now) item) };

    /// Adds the facts that descriptors give once an item is marked.
    fn add_waiting(&self, alloc: Global, item: Item, facts: &mut Facts) -> Result<(), NoMemory>
        ensures { OnOk result (facts.new ≡ facts.old ++ waiting_facts (recs_of self.now) (roots_of self.now) item) };

    /// Adds what the flow of values in a marked item makes necessary.
    fn add_flow(&self, alloc: Global, item: Item, facts: &mut Facts) -> Result<(), NoMemory>
        ensures { OnOk result (facts.new ≡ facts.old ++ flow_marks (recs_of self.now) item) };

    /// Adds the facts that hold at the start, from an entry method by its row.
    fn add_start(
        &self,
        alloc: Global,
        entry: Option<RowAt>,
        facts: &mut Facts,
    ) -> Result<(), NoMemory>
        ensures { OnOk result (facts.new ≡ facts.old ++ start_facts (recs_of self.now) entry (roots_of self.now)) };
}
