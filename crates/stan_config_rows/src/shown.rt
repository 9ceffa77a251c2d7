//! Configurations and refusals as text. What isn't given is left out; paths are shown where a row has words.

use stan_base::OutOfMemory;
use stan_config::{Config, ConfigStop, IgnoreEntry};
use std::alloc::Global;

/// A configuration as text, or `nothing`.
pub fn config_text(alloc: Global, config: &Config, paths: bool) -> Result<String, OutOfMemory> {
    let mut text = String::new(alloc);
    if config.level > 0 {
        let level = config.level;
        text.push_str(format!(in alloc; " level {level}")?.as_str())?;
    }
    if paths {
        put_list(&mut text, " paths [", &config.paths)?;
    }
    put_some(&mut text, " exclude [", &config.exclude)?;
    put_some(&mut text, " files [", &config.scan_files)?;
    put_some(&mut text, " directories [", &config.scan_directories)?;
    for entry in &config.ignore {
        put_entry(alloc, &mut text, entry)?;
    }
    if !config.report_unmatched {
        text.push_str(" unmatched pass")?;
    }
    if text.is_empty() {
        text.push_str("nothing")?;
    }
    Ok(String::from_str(alloc, text.as_str().trim())?)
}

fn put_some(text: &mut String, name: &str, items: &[String]) -> Result<(), OutOfMemory> {
    if items.is_empty() {
        return Ok(());
    }
    put_list(text, name, items)
}

fn put_list(text: &mut String, name: &str, items: &[String]) -> Result<(), OutOfMemory> {
    text.push_str(name)?;
    let mut is_first = true;
    for item in items {
        if !is_first {
            text.push_str(", ")?;
        }
        text.push_str(item.as_str())?;
        is_first = false;
    }
    text.push_str("]")?;
    Ok(())
}

fn put_entry(alloc: Global, text: &mut String, entry: &IgnoreEntry) -> Result<(), OutOfMemory> {
    text.push_str(" ignore ")?;
    text.push_str(entry.message.as_str())?;
    put_some(text, " in [", &entry.paths)?;
    if let Some(count) = entry.count {
        text.push_str(format!(in alloc; " count {count}")?.as_str())?;
    }
    match entry.report_unmatched {
        Some(true) => text.push_str(" reported")?,
        Some(false) => text.push_str(" passed")?,
        None => {}
    }
    Ok(())
}

/// A refusal as text.
pub fn stop_text(alloc: Global, stop: ConfigStop) -> Result<String, OutOfMemory> {
    match stop {
        ConfigStop::Missing { path } => {
            Ok(format!(in alloc; "configuration file {path} not found")?)
        }
        ConfigStop::BadNeon { path, line } => Ok(format!(in alloc; "{path}:{line}: not NEON")?),
        ConfigStop::BadConfig { path, key } => Ok(format!(in alloc; "{path}: bad key {key}")?),
        ConfigStop::NoPaths => Ok(String::from_str(alloc, "no path to analyse")?),
        ConfigStop::Tree => Ok(String::from_str(alloc, "reading the project failed")?),
        ConfigStop::OutOfMemory => Err(OutOfMemory),
    }
}
