//! How numbers and names stand in a page.

ghost use Rattle.std.specs.Prelude.{◌≡◌};
ghost use Rattle.pb_page.specs.Inner.Value.{called};
ghost use Rattle.pb_page.specs.Page.{width};

use pb_core::money::Money;
use pb_core::project::Project;

/// How many ten thousandths of the whole an amount is; all of them where it is more.
pub(crate) fn width(amount: u64, whole: u64) -> u64
    ensures { result ≡ width amount whole }
{
    let parts = u128::from(amount) * 10_000 / u128::from(whole.max(1));
    parts.min(10_000) as u64
}

/// How wide an amount of money is, of a whole.
pub(crate) fn bar(amount: Money, whole: Money) -> u64
    ensures { result ≡ width amount whole }
{
    width(amount.0, whole.0)
}

/// What a project is called: its name, or its id where it has none.
pub(crate) fn called(project: &Project) -> &str
    ensures { result.now ≡ called project.now }
{
    let name = project.name();
    if name.is_empty() { project.id() } else { name }
}
