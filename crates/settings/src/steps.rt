// A setting by value, and the stepper over settings.
ghost use Rattle.std.specs.Prelude.{◌≡◌, ◌≤◌, length};
ghost use Rattle.settings.specs.Tells.{Tells};
ghost use Rattle.settings.specs.Step.{Inside, Steps, setting_of, zero_setting};
ghost use Rattle.settings.specs.Odometer.{Turns};

use crate::ranges::{features_ok, setting_ok};
use crate::refusals::Refusal;

// A setting: the first count of the values, feature 0 first. A count past 16 is outside the numbers.
// The values stay an array beside their count: the library has no heap, and a setting is passed by value.
#[derive(Clone, Copy, PartialEq, Eq, Debug, Default)]
pub struct Setting {
    pub count: usize,
    pub values: [u8; 16],
}

// What a step gives: the next setting; or that there is none, and the all-zero setting.
#[derive(Clone, Copy, PartialEq, Eq, Debug)]
pub enum Stepped {
    Next(Setting),
    Last(Setting),
}

// The last value that can grow grows, and those after it go to 0; none where no value can.
fn turn(features: &[u8], from: [u8; 16]) -> Option<[u8; 16]>
    requires { length features.now ≤ 16 }
    ensures { Turns features.now from result }
{
    let mut values = from;
    for i in (0..features.len()).rev() {
        let value = values[i];
        if u32::from(value) + 1 < u32::from(features[i]) {
            values[i] = value + 1;
            return Some(values);
        }
        values[i] = 0;
    }
    None
}

impl Setting {
    // The setting whose values are the bytes; of more than 16 it keeps the first 16.
    pub fn of(bytes: &[u8]) -> Setting
        ensures { result ≡ setting_of bytes.now }
    {
        let count = bytes.len();
        let kept = count.min(16);
        let mut values = [0u8; 16];
        values[..kept].copy_from_slice(&bytes[..kept]);
        Setting { count, values }
    }

    // The setting of count zeros.
    pub fn zero(count: usize) -> Setting
        ensures { result ≡ zero_setting count }
    {
        Setting {
            count,
            values: [0; 16],
        }
    }

    // Whether the features are a feature list, and this is a setting of them.
    pub fn inside(self, features: &[u8]) -> bool
        ensures { Tells result (Inside features.now self) }
    {
        let count = self.count;
        if !features_ok(features) || count != features.len() {
            return false;
        }
        setting_ok(features, &self.values[..count])
    }

    // The next setting in order; where this was the last, the all-zero one.
    pub fn next(self, features: &[u8]) -> Result<Stepped, Refusal>
        ensures { Steps features.now self result }
    {
        if !self.inside(features) {
            return Err(Refusal::BadArgument);
        }
        let count = self.count;
        let clean = Setting::of(&self.values[..count]);
        let Some(values) = turn(features, clean.values) else {
            return Ok(Stepped::Last(Setting::zero(count)));
        };
        Ok(Stepped::Next(Setting { count, values }))
    }
}
