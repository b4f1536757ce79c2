// Terms over numbered paths, and lists of them.
ghost use Rattle.std.specs.Prelude.{◌≡◌, ◌<◌, ◌+◌, ◌^◌, ◌++◌, [], ◌∷◌, length, OnOk, OnErr, IfErr, slice_index_or};

use std::alloc::Global;
use std::marker::Model;
use tomo_base::NoMemory;

/// A path, by its number, and how often it counts.
#[derive(Clone, Copy, Debug, PartialEq, Eq)]
pub struct Term {
    pub coef: i8,
    pub path: u32,
}

/// A list of terms.
#[derive(Drop)]
pub struct Recipe {
    terms: Vec<Term>,
}

impl Model for Recipe {
    ghost use Rattle.std.specs.Prelude.{List, vec_len, ◌<◌, ◌^◌};
    ghost use Rattle.simple_path.specs.declared.recipe.Term.{Term};

    ghost Value = { List Term };

    ghost view = { λ r. r.terms.items };

    ghost invariant = { λ r. vec_len r.terms < 2 ^ 32 };
}

impl Recipe {
    /// No terms. It takes no memory.
    pub fn new(alloc: Global) -> Recipe
        ensures { result ≡ [] }
    {
        Recipe {
            terms: Vec::new(alloc),
        }
    }

    /// Adds a term at the end.
    pub fn push(&mut self, term: Term) -> Result<(), NoMemory>
        requires { length self.old + 1 < 2 ^ 32 }
        ensures ok { OnOk result (self.new ≡ self.old ++ term ∷ []) }
        ensures err { OnErr result (self.new ≡ self.old) }
    {
        self.terms.push(term)?;
        Ok(())
    }

    /// The terms, in the order in which they were added. It takes no memory.
    pub fn terms(&self) -> &[Term]
        ensures terms { result.now ≡ self.now }
        ensures few { length result.now < 2 ^ 32 }
    {
        &self.terms
    }
}

/// A list of recipes.
#[derive(Drop)]
pub struct Recipes {
    recipes: Vec<Recipe>,
}

impl Model for Recipes {
    ghost use Rattle.std.specs.Prelude.{List, vec_len, ◌<◌, ◌^◌};
    ghost use Rattle.simple_path.specs.declared.recipe.Term.{Term};

    ghost Value = { List (List Term) };

    ghost view = { λ r. r.recipes.items };

    ghost invariant = { λ r. vec_len r.recipes < 2 ^ 32 };
}

impl Recipes {
    /// No recipes. It takes no memory.
    pub fn new(alloc: Global) -> Recipes
        ensures { result ≡ [] }
    {
        Recipes {
            recipes: Vec::new(alloc),
        }
    }

    /// Adds a recipe at the end. The error hands the recipe back, and comes for want of memory alone.
    pub fn push(&mut self, recipe: Recipe) -> Result<(), Recipe>
        requires { length self.old + 1 < 2 ^ 32 }
        ensures ok { OnOk result (self.new ≡ self.old ++ recipe ∷ []) }
        ensures handed_back { IfErr result (λ r. r ≡ recipe) }
        ensures err { OnErr result (self.new ≡ self.old) }
    {
        match self.recipes.push(recipe) {
            Ok(()) => Ok(()),
            Err(refused) => Err(refused.value),
        }
    }

    /// How many recipes there are. It takes no memory.
    pub fn len(&self) -> u32
        ensures { result ≡ length self.now }
    {
        self.recipes.len() as u32
    }

    /// The recipe with a number. It takes no memory.
    pub fn at(&self, i: u32) -> &Recipe
        requires { i < length self.now }
        ensures { result.now ≡ slice_index_or self.now i [] }
    {
        &self.recipes[i as usize]
    }
}
