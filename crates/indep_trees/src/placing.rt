// The nodes of ears, put into one order.
ghost use Rattle.std.specs.Prelude.{◌≡◌, ◌≢◌, ◌⊎◌, ◌<◌, ◌≤◌, ◌+◌, ◌-◌, ℕ, length, All, IfOk, OnOk, IsTrue, true, false};
ghost use Rattle.tomo_base.specs.Sets.{has};
ghost use Rattle.tomo_base.specs.Search.{entry_at};
ghost use Rattle.tomo_base.specs.Walks.{NoneTwice};
ghost use Rattle.ear_order.specs.Ears.{IsOrder, in_ears};
ghost use Rattle.ear_order.specs.Turns.{IsEither, between};
ghost use Rattle.indep_trees.specs.Placing.{StandsBefore, IsWidened, AreGiven, Numbered};

use ear_order::EarOrder;
use std::alloc::Global;
use tomo_base::NoMemory;

/// The first place in a list at which one of two nodes stands.
fn first_place(nodes: &[u32], v: u32, w: u32) -> usize
    requires { IsTrue (has nodes.now v) }
    ensures below { result < length nodes.now }
    ensures place { (entry_at nodes.now result ≡ v) ⊎ (entry_at nodes.now result ≡ w) }
    ensures first { (k : ℕ) → k < result → (entry_at nodes.now k ≢ v) × (entry_at nodes.now k ≢ w) }
{
    for (i, &x) in nodes.iter().enumerate() {
        if x == v || x == w {
            return i;
        }
    }
    unreachable!()
}

/// An ear whose first node stands before its last in the order, and the place of its first node there.
#[derive(Drop)]
pub struct FacedEar {
    pub ear: Vec<u32>,
    pub place: usize,
}

/// The ear, turned round where its last node stands before its first in the order.
fn face(alloc: Global, order: &[u32], ear: &[u32]) -> Result<FacedEar, NoMemory>
    requires some { 1 ≤ length ear.now }
    requires first { IsTrue (has order.now (entry_at ear.now 0)) }
    requires last { IsTrue (has order.now (entry_at ear.now (length ear.now - 1))) }
    requires differ { entry_at ear.now 0 ≢ entry_at ear.now (length ear.now - 1) }
    ensures ear { IfOk result (λ f. IsEither f.ear.items ear.now) }
    ensures before { IfOk result (λ f. StandsBefore order.now (entry_at f.ear.items 0) (entry_at f.ear.items (length f.ear.items - 1))) }
    ensures place { IfOk result (λ f. (f.place < length order.now) × (entry_at order.now f.place ≡ entry_at f.ear.items 0)) }
{
    let mut turned = ear.to_vec(alloc)?;
    let place = first_place(order, ear[0], ear[ear.len() - 1]);
    if order[place] != ear[0] {
        turned.reverse();
    }
    Ok(FacedEar { ear: turned, place })
}

/// Puts the nodes between the ends of the ear into the order, behind the place of its first node. The error is want of memory.
fn widen(order: &mut Vec<u32>, faced: &FacedEar) -> Result<(), NoMemory>
    requires long { 2 ≤ length faced.now.ear.items }
    requires place { faced.now.place < length order.old.items }
    requires first { entry_at order.old.items faced.now.place ≡ entry_at faced.now.ear.items 0 }
    ensures { OnOk result (IsWidened order.old.items faced.now.ear.items order.new.items) }
{
    for i in 0..faced.ear.len() - 2 {
        order.insert(faced.place + 1 + i, faced.ear[i + 1])?;
    }
    Ok(())
}

/// Gives each node between the ends of the ear its two neighbours there: to the low ones the node before it, to the high ones the node
/// after it.
fn put(low: &mut Vec<u32>, high: &mut Vec<u32>, ear: &[u32])
    requires long { 2 ≤ length ear.now }
    requires low { All (λ v. v < length low.old.items) ear.now }
    requires high { All (λ v. v < length high.old.items) ear.now }
    requires different { NoneTwice ear.now }
    ensures low { AreGiven ear.now (λ k. entry_at ear.now k) low.old.items (length ear.now - 2) low.new.items }
    ensures high { AreGiven ear.now (λ k. entry_at ear.now (k + 2)) high.old.items (length ear.now - 2) high.new.items }
{
    for i in 0..ear.len() - 2 {
        let v = ear[i + 1] as usize;
        low[v] = ear[i];
        high[v] = ear[i + 2];
    }
}

/// Gives each node between the ends of the ear the number.
fn fill(values: &mut Vec<u32>, ear: &[u32], number: u32)
    requires long { 2 ≤ length ear.now }
    requires nodes { All (λ v. v < length values.old.items) ear.now }
    ensures size { length values.new.items ≡ length values.old.items }
    ensures given { (v : ℕ) → between ear.now v ≡ true → entry_at values.new.items v ≡ number }
    ensures kept { (v : ℕ) → between ear.now v ≡ false → entry_at values.new.items v ≡ entry_at values.old.items v }
{
    for i in 0..ear.len() - 2 {
        values[ear[i + 1] as usize] = number;
    }
}

/// The nodes of ears in one order, the neighbours of each on its ear, and the number of its ear.
#[derive(Drop)]
pub struct Placing {
    pub order: Vec<u32>,
    pub low: Vec<u32>,
    pub high: Vec<u32>,
    pub ears: Vec<u32>,
}

/// The nodes of all ears, put into one order ear by ear.
pub fn placed(alloc: Global, n: u32, ears: &EarOrder, r: u32, t: u32) -> Result<Placing, NoMemory>
    requires order { IsOrder ears.now }
    requires nodes { n ≡ ears.now.graph.nodes }
    requires r { r ≡ ears.now.r }
    requires t { t ≡ ears.now.t }
    ensures low { IfOk result (λ p. length p.low.items ≡ n) }
    ensures high { IfOk result (λ p. length p.high.items ≡ n) }
    ensures ears { IfOk result (λ p. length p.ears.items ≡ n) }
    ensures numbered { IfOk result (λ p. Numbered ears.now.graph r t ears.now.u (in_ears ears.now.list) p.order.items (entry_at p.low.items) (entry_at p.high.items) (entry_at p.ears.items) (length ears.now.list + 1)) }
{
    let mut low = vec![in alloc; 0; n as usize]?;
    let mut high = vec![in alloc; 0; n as usize]?;
    let mut numbers = vec![in alloc; 0; n as usize]?;
    let mut order: Vec<u32> = Vec::new(alloc);
    order.push(r)?;
    order.push(t)?;
    for i in 0..ears.len() {
        let faced = face(alloc, &order, ears.ear(i))?;
        widen(&mut order, &faced)?;
        put(&mut low, &mut high, &faced.ear);
        fill(&mut numbers, &faced.ear, i + 1);
    }
    Ok(Placing {
        order,
        low,
        high,
        ears: numbers,
    })
}
