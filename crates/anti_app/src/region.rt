ghost use Rattle.std.specs.Prelude.{◌≡◌, map, IfOk, IsTrue};
ghost use Rattle.std.specs.List.{list_all};
ghost use Rattle.anti_ids.specs.List.{plain};
ghost use Rattle.toml.specs.View.{view};
ghost use Rattle.anti_rules.specs.Trees.{text_of};
ghost use Rattle.anti_app.specs.inner.Fit.{is_fit_region};

use crate::app::Names;
use crate::table_values::name_of;
use anti_ids::{List, Name, NoMemory};
use anti_rules::text_of;
use std::alloc::Global;
use toml::Value;

// The name of a region.
#[tactic(auto, unfolding(crate::specs::inner::Fit::is_fit_region))]
fn region_of(value: &Value) -> Name
    requires { IsTrue (is_fit_region (view value.now)) }
    ensures { result ≡ text_of (view value.now) }
{
    name_of(text_of(value))
}

/// The names of some regions.
pub fn regions_of(alloc: Global, values: &[Value]) -> Result<Names, NoMemory>
    requires { IsTrue (list_all is_fit_region (map view values.now)) }
    ensures { IfOk result (λ regions. regions ≡ plain (map text_of (map view values.now))) }
{
    let mut regions = List::new(alloc);
    for value in values {
        regions.add(region_of(value))?;
    }
    Ok(regions)
}
