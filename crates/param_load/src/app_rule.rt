//! Which application parameters a slave accepts.
ghost use Rattle.std.specs.Prelude.{◌≡◌, ◌≤◌, nat_le, IsTrue};
ghost use Rattle.std.specs.Cmp.Lexicographic.{pointwise};
ghost use Rattle.param_load.specs.AppRule.{rule_len, allows, is_acceptable};

use fsoe_base::ByteList;

/// The most bytes of application parameters.
const MOST_APPLICATION: usize = 512;

/// At most 512 bytes that the application gives a meaning. In contracts the value is the list of these bytes.
pub type AppBytes = ByteList<MOST_APPLICATION>;

/// Which application parameters a slave accepts.
#[derive(Drop)]
pub enum AppRule {
    /// Accepts any list of this many bytes.
    Any(u16),
    /// Accepts only these bytes.
    Exact(AppBytes),
    /// Accepts a list if each byte is from the lowest to the highest value at its place.
    Ranges(AppBytes, AppBytes),
}

/// Whether two slices are as long as each other, and no byte of the first is above that of the second.
fn each_at_most(xs: &[u8], ys: &[u8]) -> bool
    ensures { result ≡ pointwise nat_le xs.now ys.now }
{
    if xs.len() != ys.len() {
        return false;
    }
    for (i, x) in xs.iter().enumerate() {
        if *x > ys[i] {
            return false;
        }
    }
    true
}

impl AppRule {
    /// The number of bytes that it accepts.
    pub fn len(&self) -> usize
        ensures value { result ≡ rule_len self.now }
        ensures most { IsTrue (is_acceptable self.now) → result ≤ 512 }
    {
        match self {
            AppRule::Any(n) => usize::from(*n),
            AppRule::Exact(want) => want.len(),
            AppRule::Ranges(low, _) => low.len(),
        }
    }

    /// Whether it accepts these bytes: their number is its own, and for `Exact` and `Ranges` their values fit.
    pub fn allows(&self, app: &[u8]) -> bool
        ensures { result ≡ allows self.now app.now }
    {
        match self {
            AppRule::Any(n) => app.len() == usize::from(*n),
            AppRule::Exact(want) => want.bytes() == app,
            AppRule::Ranges(low, high) => {
                each_at_most(low.bytes(), app) && each_at_most(app, high.bytes())
            }
        }
    }

    /// Returns true if settings may have this rule: `Any` is at most 512, and the two lists of `Ranges` have one
    /// length, with no lowest value above its highest.
    pub fn is_acceptable(&self) -> bool
        ensures { result ≡ is_acceptable self.now }
    {
        match self {
            AppRule::Any(n) => usize::from(*n) <= MOST_APPLICATION,
            AppRule::Exact(_) => true,
            AppRule::Ranges(low, high) => each_at_most(low.bytes(), high.bytes()),
        }
    }

    /// Returns a copy of the rule. Doesn't allocate.
    pub fn copy(&self) -> AppRule
        ensures { result ≡ self.now }
    {
        match self {
            AppRule::Any(n) => AppRule::Any(*n),
            AppRule::Exact(want) => AppRule::Exact(want.copy()),
            AppRule::Ranges(low, high) => AppRule::Ranges(low.copy(), high.copy()),
        }
    }
}
