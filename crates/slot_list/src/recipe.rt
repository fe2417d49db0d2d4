// How the blocks of guests are built.
ghost use Rattle.std.specs.Prelude.{◌≡◌, ◌≤◌, length, map, IfOk, Some, slice_get};
ghost use Rattle.std.specs.List.{Contains, list_any};
ghost use Rattle.slot_list.specs.Recipe.{recipe_of, recipes_of, first_uses, same, same_isa, same_tool};

use manifest::GuestRow;
use probe_tools::Tool;
use rv_decode::Isa;
use std::alloc::{AllocError, Global};
use std::marker::Model;

/// How the blocks of a unit are built: from which instruction set, with the probes of which tool, and of how many
/// instructions at most.
#[derive(Clone, Copy, Debug, PartialEq, Eq)]
pub struct Recipe {
    pub isa: Isa,
    pub tool: Tool,
    /// The most instructions of a block, 1 to 64.
    pub max: u8,
}

impl Model for Recipe {
    ghost use Rattle.slot_list.specs.Recipe.{Recipe as RecipeParts, IsRecipe};

    ghost Value = { RecipeParts };

    ghost view = { λ r. record { isa = r.isa; tool = r.tool; max = r.max } };

    ghost invariant = { λ r. IsRecipe (record { isa = r.isa; tool = r.tool; max = r.max }) };

    ghost inverse = { λ r. record { isa = r.isa; tool = r.tool; max = r.max } };
}

/// How a guest's blocks are built.
pub fn recipe_of(guest: &GuestRow) -> Recipe
    ensures { result ≡ recipe_of guest.now }
{
    Recipe {
        isa: guest.isa,
        tool: guest.tool,
        max: guest.max,
    }
}

/// The recipes of guests, each once, in the order in which guests first use them.
pub fn recipes_of(alloc: Global, guests: &[GuestRow]) -> Result<Vec<Recipe>, AllocError>
    requires { length guests.now ≤ 64 }
    ensures recipes { IfOk result (λ v. v.items ≡ recipes_of guests.now) }
    ensures few { IfOk result (λ v. length v.items ≤ length guests.now) }
{
    let mut recipes = Vec::new(alloc);
    for guest in guests {
        let recipe = recipe_of(guest);
        if !is_among(&recipes, recipe) {
            recipes.push(recipe)?;
        }
    }
    Ok(recipes)
}

// Whether it is one of these.
fn is_among(recipes: &[Recipe], recipe: Recipe) -> bool
    ensures { result ≡ list_any (λ r. same r recipe) recipes.now }
{
    for r in recipes {
        if is_same(*r, recipe) {
            return true;
        }
    }
    false
}

/// The place of a recipe among those that it is one of.
pub fn place_of(recipes: &[Recipe], recipe: Recipe) -> u32
    requires few { length recipes.now ≤ 64 }
    requires listed { Contains recipes.now recipe }
    ensures { slice_get recipes.now result ≡ Some recipe }
{
    for (i, r) in recipes.iter().enumerate() {
        if is_same(*r, recipe) {
            return i as u32;
        }
    }
    unreachable!()
}

fn is_same(a: Recipe, b: Recipe) -> bool
    ensures { result ≡ same a b }
{
    is_same_isa(a.isa, b.isa) && is_same_tool(a.tool, b.tool) && a.max == b.max
}

fn is_same_isa(a: Isa, b: Isa) -> bool
    ensures { result ≡ same_isa a b }
{
    match (a, b) {
        (Isa::I, Isa::I) => true,
        (Isa::Im, Isa::Im) => true,
        (Isa::I, Isa::Im) => false,
        (Isa::Im, Isa::I) => false,
    }
}

fn is_same_tool(a: Tool, b: Tool) -> bool
    ensures { result ≡ same_tool a b }
{
    match a {
        Tool::Blocks => matches!(b, Tool::Blocks),
        Tool::Calls => matches!(b, Tool::Calls),
        Tool::Memory => matches!(b, Tool::Memory),
    }
}
