//! What a plant is set up with.
ghost use Rattle.std.specs.Prelude.{◌≡◌, [], map, Some, None, IfOk, MatchOption, string_bytes, List, ℕ};
ghost use Rattle.std.specs.Result.{result_err};
ghost use Rattle.fb_net.specs.Standing.{IsNewNet};
ghost use Rattle.fb_net.specs.declared.kind_of.KindOf.TheVariants as kind;
ghost use Rattle.plant_setup.specs.Names.{name_place};
ghost use Rattle.plant_setup.specs.Setup.{setup_fault, app_name_fault, net_of, IsChosen};
ghost use Rattle.plant_setup.specs.declared.fault.SetupFault.TheVariants as setup;

use crate::bits::take_net;
use crate::fault::SetupFault;
use crate::named::{place_of, take_app};
use black_channel::Channel;
use fb_net::{AppEntry, AppKind, KindOf, Net};
use plant_conf::PlantConf;

/// What a plant is set up with.
#[derive(Drop)]
pub struct Setup {
    /// The application that runs first.
    pub app: AppKind,
    /// The applications that its script may take later, in their order.
    pub spare: Vec<AppEntry>,
    /// The place of its channel among those of the caller, from 0.
    pub channel: usize,
}

/// Returns the application that runs first: the net if the configuration names it, else the first of its name, which is
/// taken out of those that are left.
fn choose_app(wanted: &str, net: Net, left: &mut Vec<AppEntry>) -> Option<AppKind>
    ensures { MatchOption result
        (app_name_fault wanted.now (map (λ entry. string_bytes entry.name) left.old.items) ≡ Some setup.NoApp)
        (λ app. (app_name_fault wanted.now (map (λ entry. string_bytes entry.name) left.old.items) ≡ None)
        × IsChosen (λ entry. string_bytes entry.name) wanted.now left.old.items left.new.items (app ≡ kind.Net net) (λ entry. app ≡ kind.Handed entry.app)) }
{
    if wanted == "net" {
        return Some(KindOf::Net(net));
    }
    match take_app(wanted.as_bytes(), left) {
        Some(entry) => Some(KindOf::Handed(entry.app)),
        None => None,
    }
}

/// Sets a plant up by its configuration, with these applications and one of these channels. Doesn't allocate. The first
/// fault is returned: of the net, of the bounds, that no application has the name, that no channel has it. The net is
/// taken out of the configuration, and tested even if it doesn't run; it had no cycle yet. After a fault all
/// applications are dropped.
pub fn set_up(
    conf: &mut PlantConf,
    apps: Vec<AppEntry>,
    channels: &[Box<dyn Channel>],
) -> Result<Setup, SetupFault>
    ensures fault { result_err result ≡ setup_fault conf.old (map (λ entry. string_bytes entry.name) apps.items) (map (λ channel. name channel) channels.now) }
    ensures app { IfOk result (λ s. IsChosen (λ entry. string_bytes entry.name) conf.old.app apps.items s.spare.items (s.app ≡ kind.Net (net_of conf.old)) (λ entry. s.app ≡ kind.Handed entry.app)) }
    ensures is_new { IfOk result (λ s. IsNewNet (net_of conf.old)) }
    ensures channel { IfOk result (λ s. name_place conf.old.channel (map (λ channel. name channel) channels.now) ≡ Some s.channel) }
    ensures rest { conf.new ≡ record conf.old { blocks = []; drives = [] } }
{
    let net = match take_net(conf) {
        Ok(net) => net,
        Err(fault) => return Err(SetupFault::Net(fault)),
    };
    let mut spare = apps;
    let Some(app) = choose_app(conf.app(), net, &mut spare) else {
        return Err(SetupFault::NoApp);
    };
    match place_of(conf.channel().as_bytes(), channels) {
        Some(channel) => Ok(Setup {
            app,
            spare,
            channel,
        }),
        None => Err(SetupFault::NoChannel),
    }
}
