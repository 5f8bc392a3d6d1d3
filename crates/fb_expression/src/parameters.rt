ghost use Rattle.std.specs.Prelude.{◌≡◌, map, IfOk};
ghost use Rattle.fb_syntax.specs.Views.{view_param};
ghost use Rattle.fb_check.specs.Accepted.{AllDiffer};
ghost use Rattle.fb_meaning.specs.Variables.{parameters_with};

use crate::variables::Variables;
use fb_base::Value;
use fb_syntax::Param;
use std::alloc::{AllocError, Global};

impl Variables {
    /// Each parameter as a variable with its argument, which is copied.
    pub fn of_parameters(
        alloc: Global,
        params: &[Param],
        args: &[Value],
    ) -> Result<Variables, AllocError>
        requires { AllDiffer (map (λ param. param.name) (map view_param params.now)) }
        ensures { IfOk result (λ made. made ≡ parameters_with (map view_param params.now) args.now) }
    {
        let mut made = Variables::new(alloc);
        for (place, param) in params.iter().enumerate() {
            let Some(value) = args.get(place) else {
                return Ok(made);
            };
            made.push(param.name, value.copy(alloc)?)?;
        }
        Ok(made)
    }
}
