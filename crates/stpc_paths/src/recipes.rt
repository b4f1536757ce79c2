// The recipe of each link, by the names of its ends' paths.
ghost use Rattle.std.specs.Prelude.{◌≡◌, ◌<◌, ◌≤◌, ◌+◌, ◌*◌, ◌^◌, ◌++◌, length, IfOk, OnOk, Some, None};
ghost use Rattle.tomo_base.specs.Limits.{graph_node_limit};
ghost use Rattle.stpc_paths.specs.Roots.{IsOwned};
ghost use Rattle.stpc_paths.specs.Terms.{sign, node_terms, link_terms};
ghost use Rattle.indep_trees.specs.Trees.{parent_in, rank_in};
ghost use Rattle.stpc_paths.specs.Kept.{IsNamedRoot, AreRooted, monitor_in, AreTermsOf, name_in, stops_in};

use crate::names::cell_of;
use crate::roots::{Root, next_tree};
use indep_trees::IndepTrees;
use simple_path::{Recipe, Recipes, Term};
use std::alloc::Global;
use tomo_base::{NoMemory, NodeSet};

// 1 or -1.
fn sign_of(plus: bool) -> i8
    ensures { result ≡ sign plus }
{
    if plus { 1 } else { -1 }
}

// Adds the terms of a node in a tree, or the opposite ones. The nodes of the trees are given for contracts.
fn add_terms(
    m: &NodeSet,
    t: &IndepTrees,
    names: &[u32],
    tree: u32,
    v: u32,
    plus: bool,
    recipe: &mut Recipe,
) -> Result<(), NoMemory>
    requires monitors { m.now ≡ t.now.monitors }
    requires few_nodes { t.now.graph.nodes ≤ graph_node_limit }
    requires tree { tree < 3 }
    requires node { v < t.now.graph.nodes }
    requires size { length names.now ≡ 3 * t.now.graph.nodes }
    requires room { length recipe.old + 3 < 2 ^ 32 }
    ensures { OnOk result (recipe.new ≡ recipe.old ++ node_terms (stops_in t.now) (name_in names.now) plus tree v) }
{
    // Monitors have none.
    if m.has(v) {
        return Ok(());
    }
    let second = next_tree(tree);
    let third = next_tree(second);
    recipe.push(Term {
        coef: sign_of(plus),
        path: names[cell_of(tree, v)],
    })?;
    recipe.push(Term {
        coef: sign_of(!plus),
        path: names[cell_of(second, v)],
    })?;
    recipe.push(Term {
        coef: sign_of(plus),
        path: names[cell_of(third, v)],
    })
}

// The terms of a link in a tree.
fn inside_terms(
    alloc: Global,
    m: &NodeSet,
    t: &IndepTrees,
    names: &[u32],
    tree: u32,
    root: Root,
    link: u32,
) -> Result<Recipe, NoMemory>
    requires tree { tree < 3 }
    requires named { IsNamedRoot t.now m.now names.now root }
    ensures { IfOk result (λ r. r ≡ link_terms (stops_in t.now) (name_in names.now) link root.node root.other (Some tree)) }
{
    let mut recipe = Recipe::new(alloc);
    add_terms(m, t, names, tree, root.node, true, &mut recipe)?;
    add_terms(m, t, names, tree, root.other, false, &mut recipe)?;
    Ok(recipe)
}

// The terms of a link outside the trees.
fn outside_terms(
    alloc: Global,
    m: &NodeSet,
    t: &IndepTrees,
    names: &[u32],
    root: Root,
    link: u32,
) -> Result<Recipe, NoMemory>
    requires named { IsNamedRoot t.now m.now names.now root }
    ensures { IfOk result (λ r. r ≡ link_terms (stops_in t.now) (name_in names.now) link root.node root.other None) }
{
    let mut recipe = Recipe::new(alloc);
    recipe.push(Term {
        coef: 2,
        path: link,
    })?;
    add_terms(m, t, names, 0, root.node, false, &mut recipe)?;
    add_terms(m, t, names, 1, root.other, false, &mut recipe)?;
    Ok(recipe)
}

// The recipe of the link with this root.
fn recipe_of(
    alloc: Global,
    m: &NodeSet,
    t: &IndepTrees,
    names: &[u32],
    link: u32,
    root: Root,
) -> Result<Recipe, NoMemory>
    requires owned { IsOwned (monitor_in t.now) (parent_in t.now) (rank_in t.now) root.node root.other root.tree }
    requires named { IsNamedRoot t.now m.now names.now root }
    ensures { IfOk result (λ r. r ≡ link_terms (stops_in t.now) (name_in names.now) link root.node root.other root.tree) }
{
    match root.tree {
        Some(tree) => inside_terms(alloc, m, t, names, tree, root, link),
        None => outside_terms(alloc, m, t, names, root, link),
    }
}

/// The recipes of all links.
pub fn recipes_of(
    alloc: Global,
    m: &NodeSet,
    t: &IndepTrees,
    names: &[u32],
    roots: &[Root],
) -> Result<Recipes, NoMemory>
    requires rooted { AreRooted t.now m.now roots.now }
    requires size { length names.now ≡ 3 * t.now.graph.nodes }
    ensures { IfOk result (λ r. AreTermsOf t.now names.now roots.now r) }
{
    let mut recipes = Recipes::new(alloc);
    for link in 0..roots.len() {
        let recipe = recipe_of(alloc, m, t, names, link as u32, roots[link])?;
        recipes.push(recipe).map_err(|_| NoMemory)?;
    }
    Ok(recipes)
}
