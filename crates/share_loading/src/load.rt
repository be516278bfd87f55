//! The settings of a file.
ghost use Rattle.std.specs.Prelude.{◌≡◌, IfOk, IfErr, None};
ghost use Rattle.share_gateway.specs.Opened.{first_refused};
ghost use Rattle.share_loading.specs.Loads.{IsSaid, IsRefused, IsSound, IsCheckFault};

use crate::refused::Refused;
use share_check::check_plan;
use share_config::read_settings;
use share_settings::Settings;
use std::alloc::Global;
use std::fs::{File, Files};
use std::io::Read;
use std::{fs, io, str};

/// The settings that a file says, or its first fault. Their plan can be opened.
pub fn read_file<R: Files<File = File>>(
    rt: &R,
    alloc: Global,
    path: &str,
) -> Result<Settings, Refused>
    ensures { IfOk result IsSound }
{
    match bytes_of(rt, alloc, path) {
        Ok(bytes) => load_settings(alloc, bytes.as_slice()),
        Err(fault) => Err(Refused::NotRead(fault)),
    }
}

fn bytes_of<R: Files<File = File>>(rt: &R, alloc: Global, path: &str) -> io::Result<Vec<u8>> {
    let mut file = fs::open(rt, path)?;
    let mut bytes = Vec::new(alloc);
    file.read_to_end(&mut bytes)?;
    Ok(bytes)
}

/// The settings that the bytes of a file say, or their first fault, in this order. They are no text; the text is no
/// file of a gateway; the plan cannot be opened.
pub fn load_settings(alloc: Global, bytes: &[u8]) -> Result<Settings, Refused>
    ensures ok { IfOk result (IsSaid bytes.now) }
    ensures fault { IfErr result (IsRefused bytes.now) }
    ensures sound { IfOk result IsSound }
{
    let Ok(text) = str::from_utf8(bytes) else {
        return Err(Refused::NotText);
    };
    match read_settings(alloc, text) {
        Ok(settings) => checked(alloc, settings),
        Err(fault) => Err(Refused::Config(fault)),
    }
}

// Settings whose plan is sound.
fn checked(alloc: Global, settings: Settings) -> Result<Settings, Refused>
    ensures ok { IfOk result (λ s. (s ≡ settings) × (first_refused settings.tariffs settings.plan ≡ None)) }
    ensures fault { IfErr result (IsCheckFault settings) }
{
    match check_plan(alloc, &settings) {
        Ok(_) => Ok(settings),
        Err(fault) => Err(Refused::Plan(fault)),
    }
}
