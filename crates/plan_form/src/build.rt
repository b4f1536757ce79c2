// A plan from a choice, monitors, pockets, paths and recipes.
ghost use Rattle.std.specs.Prelude.{◌<◌, [], length, All, IfOk};
ghost use Rattle.tomo_base.specs.Sets.{has};
ghost use Rattle.plan_form.specs.Buildable.{IsBuildable, IsBuiltOf};

use crate::arranging::arrange;
use crate::copies::{copy_names, copy_pockets};
use crate::plan::Plan;
use simple_path::{PathPool, Recipes};
use std::alloc::Global;
use tomo_base::{NoMemory, NodeSet, Pockets};
use topology::{Choice, Topology};

impl Plan {
    /// The plan of these parts for a topology, where no node is forced or barred: otherwise as `build_with`.
    pub fn build(
        alloc: Global,
        t: &Topology,
        m: &NodeSet,
        pockets: &Pockets,
        pool: &PathPool,
        recipes: &Recipes,
    ) -> Result<Plan, NoMemory>
        requires parts { IsBuildable t.now.graph (has m.now) pool.now recipes.now }
        requires filled { All (λ k. 0 < length k.nodes) pockets.now }
        ensures { IfOk result (IsBuiltOf t.now [] [] m.now pockets.now pool.now recipes.now) }
    {
        let choice = Choice {
            must: NodeSet::new(alloc),
            not: NodeSet::new(alloc),
        };
        Plan::build_with(alloc, t, &choice, m, pockets, pool, recipes)
    }

    /// The plan of these parts for a topology, with the nodes of the choice. The paths and recipes stand in it as `arrange` puts them.
    pub fn build_with(
        alloc: Global,
        t: &Topology,
        choice: &Choice,
        m: &NodeSet,
        pockets: &Pockets,
        pool: &PathPool,
        recipes: &Recipes,
    ) -> Result<Plan, NoMemory>
        requires parts { IsBuildable t.now.graph (has m.now) pool.now recipes.now }
        requires filled { All (λ k. 0 < length k.nodes) pockets.now }
        ensures { IfOk result (IsBuiltOf t.now choice.now.must choice.now.not m.now pockets.now pool.now recipes.now) }
    {
        let arranged = arrange(alloc, pool, recipes)?;
        Ok(Plan {
            names: copy_names(alloc, t)?,
            links: t.graph().links().to_vec(alloc)?,
            forced: choice.must.as_slice().to_vec(alloc)?,
            barred: choice.not.as_slice().to_vec(alloc)?,
            monitors: m.as_slice().to_vec(alloc)?,
            pockets: copy_pockets(alloc, pockets)?,
            paths: arranged.paths,
            recipes: arranged.recipes,
        })
    }
}
