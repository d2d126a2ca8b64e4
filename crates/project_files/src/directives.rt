//! The directives of a project file.
ghost use Rattle.std.specs.Prelude.{◌≡◌};
ghost use Rattle.std.specs.Option.{option_map};
ghost use Rattle.project_files.specs.Directives.{directive, two_names, one_name, a_safe_get, an_effect};
ghost use Rattle.project_files.specs.View.{directive_of};

use crate::words::{behind, is_module_name, is_setting, is_value_name, parted};

/// What a directive says.
#[derive(Clone, Copy, Debug)]
pub enum Directive<'a> {
    /// Addresses that fit the pattern are allowed, or denied.
    Rule { allow: bool, pattern: &'a str },
    /// A function that may be called without a check of the request's origin.
    SafeGet { owner: &'a str, name: &'a str },
    /// A module of foreign effects.
    Foreign { owner: &'a str },
    /// An effect of a foreign module.
    Effect { owner: &'a str, name: &'a str },
    /// A setting, which has no effect.
    Setting,
}

/// `M/f` behind `safeGet`.
fn safe_get(text: &str) -> Option<Directive<'_>>
    ensures { option_map directive_of result ≡ two_names 47 a_safe_get text.now }
{
    let (owner, name) = parted(text, '/')?;
    if is_module_name(owner.as_bytes()) && is_value_name(name.as_bytes()) {
        Some(Directive::SafeGet { owner, name })
    } else {
        None
    }
}

/// `M.f` behind `effectful`.
fn effect(text: &str) -> Option<Directive<'_>>
    ensures { option_map directive_of result ≡ two_names 46 an_effect text.now }
{
    let (owner, name) = parted(text, '.')?;
    if is_module_name(owner.as_bytes()) && is_value_name(name.as_bytes()) {
        Some(Directive::Effect { owner, name })
    } else {
        None
    }
}

/// `M` behind `ffi`.
fn foreign(owner: &str) -> Option<Directive<'_>>
    ensures { option_map directive_of result ≡ one_name owner.now }
{
    if is_module_name(owner.as_bytes()) {
        Some(Directive::Foreign { owner })
    } else {
        None
    }
}

/// What a line says as a directive, where it is one.
pub fn read_directive(line: &str) -> Option<Directive<'_>>
    ensures { option_map directive_of result ≡ directive line.now }
{
    if let Some(pattern) = behind("allow url ", line) {
        return Some(Directive::Rule {
            allow: true,
            pattern,
        });
    }
    if let Some(pattern) = behind("deny url ", line) {
        return Some(Directive::Rule {
            allow: false,
            pattern,
        });
    }
    if let Some(text) = behind("safeGet ", line) {
        return safe_get(text);
    }
    if let Some(owner) = behind("ffi ", line) {
        return foreign(owner);
    }
    if let Some(text) = behind("effectful ", line) {
        return effect(text);
    }
    if is_setting(line) {
        Some(Directive::Setting)
    } else {
        None
    }
}
