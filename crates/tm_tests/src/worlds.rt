//! Worlds of texts, and the questions of worlds.
ghost use Rattle.std.specs.Bool.{OnTrue};
ghost use Rattle.std.specs.Prelude.{◌≡◌, IfSome, false};
ghost use Rattle.tm_base.specs.Faults.{has_no_layout};
ghost use Rattle.tm_base.specs.Tables.{expanded_in};
ghost use Rattle.tm_base.specs.Worlds.{IsTypeOver, tables_of};
ghost use Rattle.tm_layout.specs.Made.{IsMadeFor};

use std::alloc::Global;
use tm_base::{Ask, Ground, Profile, World};
use tm_ground::ground;
use tm_layout::Layouts;
use tm_lex::lex;
use tm_names::check;
use tm_parse::parse;

/// The world of a text for a profile, where that is a file within all limits.
pub fn world_for(alloc: Global, text: &str, profile: Profile) -> Option<World> {
    if text.len() > 1_048_576 {
        return None;
    }
    let tokens = lex(alloc, text).ok()?;
    let parsed = parse(alloc, text, tokens.as_slice()).ok()?;
    let resolved = check(alloc, text, tokens.as_slice(), &parsed, profile).ok()?;
    ground(alloc, &resolved).ok()
}

/// The same for the profile that is taken where none is named.
pub fn world(alloc: Global, text: &str) -> Option<World> {
    world_for(alloc, text, Profile::Le64)
}

/// One of a world's questions, counted from 0.
pub fn question(world: &World, number: usize) -> Option<&Ask>
    ensures source { IfSome result (λ ask. IsTypeOver (tables_of world.now) ask.now.src) }
    ensures target { IfSome result (λ ask. IsTypeOver (tables_of world.now) ask.now.dst) }
{
    let ask = world.questions.get(number)?;
    Some(ask)
}

/// Whether a type of the world has a layout.
pub fn has_layout(world: &World, layouts: &Layouts, g: &Ground) -> bool
    requires made { IsMadeFor (tables_of world.now) layouts.now }
    requires over { IsTypeOver (tables_of world.now) g.now }
    ensures { OnTrue result (has_no_layout (expanded_in (tables_of world.now) g.now) ≡ false) }
{
    match layouts.of(g) {
        Ok(_) => true,
        Err(_) => false,
    }
}
