// A plan and its parts.
ghost use Rattle.std.specs.Prelude.{◌≡◌, ◌<◌, length, slice_get, Some};
ghost use Rattle.plan_form.specs.Parts.{PlanPocket, IsWellFormed};

use simple_path::{PathPool, Recipes};
use std::marker::Model;
use tomo_base::{Link, Words};

/// A pocket as it stands in a plan.
#[derive(Drop)]
pub(crate) struct HeldPocket {
    pub(crate) need: u32,
    pub(crate) nodes: Vec<u32>,
}

/// Names and links of a network, nodes that were forced to be monitors and nodes that were barred from it, monitors, pockets, paths,
/// and a recipe for each link; each as the list that stands in a plan file, well formed and otherwise unchecked.
#[derive(Drop)]
pub struct Plan {
    pub(crate) names: Words,
    pub(crate) links: Vec<Link>,
    pub(crate) forced: Vec<u32>,
    pub(crate) barred: Vec<u32>,
    pub(crate) monitors: Vec<u32>,
    pub(crate) pockets: Vec<HeldPocket>,
    pub(crate) paths: PathPool,
    pub(crate) recipes: Recipes,
}

impl Model for Plan {
    ghost use Rattle.std.specs.Prelude.{map};
    ghost use Rattle.plan_form.specs.Held.{part_of};
    ghost use Rattle.plan_form.specs.Parts.{PlanParts, IsWellFormed};

    ghost Value = { PlanParts };

    ghost view = { λ p. record {
      names = p.names;
      links = p.links.items;
      forced = p.forced.items;
      barred = p.barred.items;
      monitors = p.monitors.items;
      pockets = map part_of p.pockets.items;
      paths = p.paths;
      recipes = p.recipes;
    } };

    ghost invariant = { λ p. IsWellFormed (record {
      names = p.names;
      links = p.links.items;
      forced = p.forced.items;
      barred = p.barred.items;
      monitors = p.monitors.items;
      pockets = map part_of p.pockets.items;
      paths = p.paths;
      recipes = p.recipes;
    }) };
}

impl Plan {
    /// The names of the nodes. It takes no memory.
    pub fn names(&self) -> &Words
        ensures names { result.now ≡ self.now.names }
        ensures formed { IsWellFormed self.now }
    {
        &self.names
    }

    /// The links, by their two ends. It takes no memory.
    pub fn links(&self) -> &[Link]
        ensures links { result.now ≡ self.now.links }
        ensures formed { IsWellFormed self.now }
    {
        &self.links
    }

    /// The nodes that had to be monitors, by their numbers. It takes no memory.
    pub fn forced(&self) -> &[u32]
        ensures forced { result.now ≡ self.now.forced }
        ensures formed { IsWellFormed self.now }
    {
        &self.forced
    }

    /// The nodes that were not to be monitors, by their numbers. It takes no memory.
    pub fn barred(&self) -> &[u32]
        ensures barred { result.now ≡ self.now.barred }
        ensures formed { IsWellFormed self.now }
    {
        &self.barred
    }

    /// The monitors, by their node numbers. It takes no memory.
    pub fn monitors(&self) -> &[u32]
        ensures monitors { result.now ≡ self.now.monitors }
        ensures formed { IsWellFormed self.now }
    {
        &self.monitors
    }

    /// How many pockets there are. It takes no memory.
    pub fn pocket_count(&self) -> u32
        ensures count { result ≡ length self.now.pockets }
        ensures formed { IsWellFormed self.now }
    {
        self.pockets.len() as u32
    }

    /// The nodes of a pocket, by its number from 0. It takes no memory.
    pub fn pocket(&self, i: u32) -> &[u32]
        requires { i < length self.now.pockets }
        ensures { (p : PlanPocket) → slice_get self.now.pockets i ≡ Some p → result.now ≡ p.nodes }
    {
        &self.pockets[i as usize].nodes
    }

    /// The need of a pocket, by its number from 0. It takes no memory.
    pub fn pocket_need(&self, i: u32) -> u32
        requires { i < length self.now.pockets }
        ensures { (p : PlanPocket) → slice_get self.now.pockets i ≡ Some p → result ≡ p.need }
    {
        self.pockets[i as usize].need
    }

    /// The paths, each a list of node numbers. It takes no memory.
    pub fn paths(&self) -> &PathPool
        ensures paths { result.now ≡ self.now.paths }
        ensures formed { IsWellFormed self.now }
    {
        &self.paths
    }

    /// The recipes, one for each link. It takes no memory.
    pub fn recipes(&self) -> &Recipes
        ensures recipes { result.now ≡ self.now.recipes }
        ensures formed { IsWellFormed self.now }
    {
        &self.recipes
    }
}
