//! Callers that read and write settings.

ghost use Rattle.std.specs.Prelude.{◌≡◌, IfErr, IfOk, IfSome, IsSome, OnOk, drop, string_bytes, take};
ghost use Rattle.json.specs.Layout.{pretty};
ghost use Rattle.json.specs.Lex.{tokens};
ghost use Rattle.toml.specs.Parse.{parse_document};

use humantime_settings::{SettingsError, from_json, from_toml, to_json};
use serde::{DeserializeOwned, Serialize};
use std::alloc::Global;

/// Reads settings in JSON, or returns the offset of the error and the document up to it. This is
/// `None` if an allocation fails.
pub fn json_or_front<T: DeserializeOwned>(
    alloc: Global,
    text: &str,
) -> Result<T, Option<(usize, &str)>>
    ensures { IfErr result (λ error. IfSome error (λ at. at.1.now ≡ take at.0 text.now)) }
{
    match from_json(alloc, text) {
        Ok(settings) => Ok(settings),
        Err(SettingsError::At { offset, .. }) => Err(Some((offset, &text[..offset]))),
        Err(SettingsError::OutOfMemory) => Err(None),
        Err(SettingsError::WithoutPosition(_)) => unreachable!(),
    }
}

/// Reads settings in TOML, or returns the offset of the error and the document from it on. This is
/// `None` if an allocation fails.
pub fn toml_or_rest<T: DeserializeOwned>(
    alloc: Global,
    text: &str,
) -> Result<T, Option<(usize, &str)>>
    ensures document { OnOk result (IsSome (parse_document text.now)) }
    ensures rest { IfErr result (λ error. IfSome error (λ at. at.1.now ≡ drop at.0 text.now)) }
{
    match from_toml(alloc, text) {
        Ok(settings) => Ok(settings),
        Err(SettingsError::At { offset, .. }) => Err(Some((offset, &text[offset..]))),
        Err(SettingsError::OutOfMemory) => Err(None),
        Err(SettingsError::WithoutPosition(_)) => unreachable!(),
    }
}

/// Writes settings in pretty-printed JSON, or returns why they cannot be written.
pub fn json_of<T: Serialize>(alloc: Global, settings: &T) -> Result<String, Option<String>>
    ensures { IfOk result (λ s. string_bytes s ≡ pretty (tokens (string_bytes s))) }
{
    match to_json(alloc, settings) {
        Ok(text) => Ok(text),
        Err(SettingsError::OutOfMemory) => Err(None),
        Err(SettingsError::WithoutPosition(message)) => Err(Some(message)),
        Err(SettingsError::At { .. }) => unreachable!(),
    }
}
