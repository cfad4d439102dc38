//! Parses the values of `--module`.

ghost use Rattle.std.specs.Prelude.{◌≡◌, ◌⊎◌, Some, None, map, IfOk, IfErr};
ghost use Rattle.std.specs.List.{Any};
ghost use Rattle.dw_requests.specs.NamedModules.{module_of, modules_of};
ghost use Rattle.dw_requests.specs.declared.requests.Usage.TheVariants.{Memory, BadArgument};

use crate::requests::Usage;
use dw_bytes::Target;
use dw_state::parse_address;
use std::alloc::Global;
use std::marker::Model;

/// A module's load address, and the name of the file that has its frame section.
#[derive(Debug, Drop)]
pub(crate) struct NamedModule<'a> {
    pub(crate) load: u64,
    pub(crate) file: &'a str,
}

impl<'a> Model for NamedModule<'a> {
    ghost use Rattle.dw_requests.specs.NamedModules.{NamedModule};

    ghost Value = { NamedModule };

    ghost view = { λ m. record { load = m.load; file = m.file.now } };
}

/// Parses a module: its load address, `=`, and the name of its file. `None` if there is no `=`, the
/// address is malformed, or the name is empty.
fn parse_module<'a>(text: &'a str, target: Target) -> Option<NamedModule<'a>>
    ensures { result ≡ module_of target text.entry.now }
{
    let (load, file) = text.split_once('=')?;
    if file.is_empty() {
        return None;
    }
    let load = parse_address(load.as_bytes(), target)?;
    Some(NamedModule { load, file })
}

/// Parses `texts` as modules, in order. The error is `BadArgument` if one of them is malformed.
#[tactic(auto, using(crate::proofs::NamedTexts::joined))]
pub(crate) fn parse_modules<'a>(
    alloc: Global,
    texts: &[&'a str],
    target: Target,
) -> Result<Vec<NamedModule<'a>>, Usage>
    ensures ok { IfOk result (λ modules. modules_of target (map (λ t. t.now) texts.now)
        ≡ Some modules.items) }
    ensures err { IfErr result (λ e. (e ≡ Memory) ⊎ ((e ≡ BadArgument)
        × Any (λ text. module_of target text ≡ None) (map (λ t. t.now) texts.now))) }
{
    let mut modules = Vec::new(alloc);
    for text in texts {
        let Some(module) = parse_module(text, target) else {
            return Err(Usage::BadArgument);
        };
        modules.push(module)?;
    }
    Ok(modules)
}
