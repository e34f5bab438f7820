//! What the programs hand in for plants. A program makes each box and hands it over here, where it gets its name.
ghost use Rattle.std.specs.Prelude.{◌≡◌, ◌∷◌, [], IfOk, map, string_bytes};
ghost use Rattle.multi_master.specs.Calls.{app_view};
ghost use Rattle.plant_file.specs.ByName.{apps_by_name, mirror_app, new_hostile, new_perfect, zeros_app};
ghost use Rattle.plant_file.specs.Handed.{entry_seen};

use black_channel::Channel;
use failsafe_io::Application;
use fb_net::AppEntry;
use std::alloc::{AllocError, Global};

/// An application under this name.
fn named(alloc: Global, name: &str, app: Box<dyn Application>) -> Result<AppEntry, AllocError>
    ensures { IfOk result (λ entry. (string_bytes entry.name ≡ name.now) × (entry.app ≡ app)) }
{
    let name = name.to_string(alloc)?;
    Ok(AppEntry { name, app })
}

/// The applications that a configuration may name beside its net: `zeros` and `mirror`.
pub fn apps_by_name(
    alloc: Global,
    zeros: Box<dyn Application>,
    mirror: Box<dyn Application>,
) -> Result<Vec<AppEntry>, AllocError>
    requires zeros { let A = ⟦<Box<dyn Application> as Application>⟧ in app_view A.rule A.holds A.guards zeros ≡ zeros_app }
    requires mirror { let A = ⟦<Box<dyn Application> as Application>⟧ in app_view A.rule A.holds A.guards mirror ≡ mirror_app }
    ensures { let A = ⟦<Box<dyn Application> as Application>⟧ in
        IfOk result (λ apps. map (entry_seen (app_view A.rule A.holds A.guards)) apps.items ≡ apps_by_name) }
{
    let mut apps = Vec::new(alloc);
    apps.push(named(alloc, "zeros", zeros)?)?;
    apps.push(named(alloc, "mirror", mirror)?)?;
    Ok(apps)
}

/// The channels that a configuration may name: `perfect` and `hostile`.
pub fn channels_by_name(
    alloc: Global,
    perfect: Box<dyn Channel>,
    hostile: Box<dyn Channel>,
) -> Result<Vec<Box<dyn Channel>>, AllocError>
    requires perfect { let C = ⟦<Box<dyn Channel> as Channel>⟧ in (C.name perfect, C.told perfect) ≡ new_perfect }
    requires hostile { let C = ⟦<Box<dyn Channel> as Channel>⟧ in (C.name hostile, C.told hostile) ≡ new_hostile }
    ensures { IfOk result (λ channels. channels.items ≡ perfect ∷ hostile ∷ []) }
{
    let mut channels = Vec::new(alloc);
    channels.push(perfect)?;
    channels.push(hostile)?;
    Ok(channels)
}
