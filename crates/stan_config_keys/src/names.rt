//! The names of keys.

ghost use Rattle.std.specs.Prelude.{◌≡◌};
ghost use Rattle.stan_model_config.specs.Keys as model;

use stan_model_config::keys::{EntryKey, Parameter, TopKey};

pub fn top_key(key: &str) -> Option<TopKey>
    ensures { result ≡ model.top_key key.now }
{
    if key == "includes" {
        return Some(TopKey::Includes);
    }
    if key == "parameters" {
        return Some(TopKey::Parameters);
    }
    None
}

fn is_without_effect(key: &str) -> bool
    ensures { result ≡ model.is_without_effect key.now }
{
    key == "tmpDir"
        || key == "parallel"
        || key == "editorUrl"
        || key == "phpVersion"
        || key == "treatPhpDocTypesAsCertain"
}

pub fn parameter(key: &str) -> Option<Parameter>
    ensures { result ≡ model.parameter key.now }
{
    if key == "level" {
        return Some(Parameter::Level);
    }
    if key == "paths" {
        return Some(Parameter::Paths);
    }
    if key == "excludePaths" {
        return Some(Parameter::ExcludePaths);
    }
    if key == "scanFiles" {
        return Some(Parameter::ScanFiles);
    }
    if key == "scanDirectories" {
        return Some(Parameter::ScanDirectories);
    }
    if key == "ignoreErrors" {
        return Some(Parameter::IgnoreErrors);
    }
    if key == "reportUnmatchedIgnoredErrors" {
        return Some(Parameter::ReportUnmatched);
    }
    if is_without_effect(key) {
        return Some(Parameter::WithoutEffect);
    }
    None
}

pub fn entry_key(key: &str) -> Option<EntryKey>
    ensures { result ≡ model.entry_key key.now }
{
    if key == "message" {
        return Some(EntryKey::Message);
    }
    if key == "path" {
        return Some(EntryKey::Path);
    }
    if key == "paths" {
        return Some(EntryKey::Paths);
    }
    if key == "count" {
        return Some(EntryKey::Count);
    }
    if key == "reportUnmatched" {
        return Some(EntryKey::ReportUnmatched);
    }
    None
}
