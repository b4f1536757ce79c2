// How often links occur in the paths of a recipe.
ghost use Rattle.std.specs.Prelude.{◌≡◌, ◌<◌, ◌≤◌, ◌+◌, ◌*◌, ◌^◌, ◌==◌, ◌↔◌, ◌⊎◌, ◌++◌, ◌∷◌, [], ℕ, List, ℤ, length, All, Contains, IfOk, OnOk, IsTrue, if◌then◌else◌};
ghost use Rattle.tomo_base.specs.declared.graph.Link.{Link};
ghost use Rattle.tomo_base.specs.Search.{entry_at};
ghost use Rattle.tomo_base.specs.Recipes.{IsRecipe};
ghost use Rattle.plan_form.specs.Parts.{IsCoefficient};
ghost use Rattle.cert_check.specs.Counting.{AreBelow, HasRoomForSteps, IsRaisedBy, CountsTerm, HasCounts, IsCounted};

use std::alloc::{AllocFailed, Global};
use tomo_base::{Graph, NoMemory};

// For each link how often it occurs, counted with the coefficients above zero and with those below, and the links that were touched.
#[derive(Drop)]
pub struct Counts {
    pub gains: Vec<u64>,
    pub losses: Vec<u64>,
    pub touched: Vec<u32>,
}

// Adds the weight to the count of each of the links.
fn count_steps(
    steps: &[u32],
    weight: u64,
    counts: &mut Vec<u64>,
    touched: &mut Vec<u32>,
) -> Result<(), AllocFailed<u32>>
    requires within { AreBelow (length counts.old.items) steps.now }
    requires light { weight ≤ 4 }
    requires room { HasRoomForSteps steps.now counts.old.items }
    ensures size { OnOk result (length counts.new.items ≡ length counts.old.items) }
    ensures counted { OnOk result (IsRaisedBy weight steps.now counts.old.items counts.new.items) }
    ensures links { OnOk result (AreBelow (length counts.old.items) touched.old.items → AreBelow (length counts.old.items) touched.new.items) }
    ensures kept { OnOk result ((k : ℕ) → Contains touched.old.items k → Contains touched.new.items k) }
    ensures touched { OnOk result ((k : ℕ) → Contains touched.new.items k ⊎ (entry_at counts.new.items k ≡ entry_at counts.old.items k)) }
{
    for &link in steps {
        counts[link as usize] += weight;
        touched.push(link)?;
    }
    Ok(())
}

impl Counts {
    // Nothing is counted.
    pub fn new(alloc: Global, g: &Graph) -> Result<Counts, NoMemory>
        ensures { IfOk result (IsCounted g.now.links []) }
    {
        let count = g.links().len();
        Ok(Counts {
            gains: vec![in alloc; 0; count]?,
            losses: vec![in alloc; 0; count]?,
            touched: Vec::new(alloc),
        })
    }

    // Adds the links of a path, given by its steps, with a coefficient.
    pub fn add(&mut self, steps: &[u32], coef: i8) -> Result<(), AllocFailed<u32>>
        requires gains { AreBelow (length self.old.gains.items) steps.now }
        requires losses { AreBelow (length self.old.losses.items) steps.now }
        requires coefficient { IsCoefficient coef }
        requires gain_room { HasRoomForSteps steps.now self.old.gains.items }
        requires loss_room { HasRoomForSteps steps.now self.old.losses.items }
        ensures { OnOk result (CountsTerm coef steps.now self.old self.new) }
    {
        let weight = u64::from(coef.unsigned_abs());
        if coef > 0 {
            count_steps(steps, weight, &mut self.gains, &mut self.touched)
        } else {
            count_steps(steps, weight, &mut self.losses, &mut self.touched)
        }
    }

    // Whether a link occurs twice where it is link i, and else zero times.
    fn is_right(&self, k: u32, i: u32) -> bool
        requires gains { k < length self.now.gains.items }
        requires losses { k < length self.now.losses.items }
        requires room { entry_at self.now.losses.items k < 2 ^ 63 }
        ensures { IsTrue result ↔ (entry_at self.now.gains.items k ≡ entry_at self.now.losses.items k + (if k == i then 2 else 0)) }
    {
        let twice = if k == i { 2 } else { 0 };
        self.gains[k as usize] == self.losses[k as usize] + twice
    }

    // Whether the terms that were counted are a recipe for link i.
    pub fn is_recipe(&self, g: &Graph, i: u32) -> bool
        requires link { i < length g.now.links }
        requires counts { HasCounts g.now.links self.now }
        requires room { (k : ℕ) → entry_at self.now.losses.items k < 2 ^ 63 }
        ensures { (terms : List (ℤ × List ℕ)) → IsCounted g.now.links terms self.now → (IsTrue result ↔ IsRecipe g.now.links i terms) }
    {
        if !self.is_right(i, i) {
            return false;
        }
        for &k in &self.touched {
            if !self.is_right(k, i) {
                return false;
            }
        }
        true
    }

    // Nothing is counted any more.
    pub fn clear(&mut self, g: &Graph)
        requires { HasCounts g.now.links self.old }
        ensures { IsCounted g.now.links [] self.new }
    {
        for i in 0..self.touched.len() {
            let link = self.touched[i] as usize;
            self.gains[link] = 0;
            self.losses[link] = 0;
        }
        self.touched.clear();
    }
}
