//! Sends posted TLPs of 64 bytes within their credits, to be timed from outside.
//!
//! Words: the number of TLPs. It prints how many items break a rule: 0.
#![tactic(auto)]

ghost use Rattle.std.specs.Prelude.{◌≡◌};

use pl_base::{Class, Dir};
use pl_credit::Credits;
use pl_dllp::{Fc, Stage};
use pl_profile::Profile;
use pl_tlp::Cost;
use std::{env, io};

fn main(rt: HostRuntime) -> io::Result<()> {
    let mut words = env::args(&rt)?;
    let _program = words.next();
    let tlps = words
        .next()
        .and_then(|word| word.as_str().parse::<u32>().ok())
        .unwrap_or(1000);
    let profile = Profile::usual();
    let mut credits = Credits::new(&profile);
    let broken = traffic(&mut credits, &profile, tlps);
    println!(rt; "{broken}")?;
    Ok(())
}

/// The bring-up, then so many TLPs, with a new grant after each 32.
fn traffic(credits: &mut Credits, profile: &Profile, tlps: u32) -> u64
    requires { credits.old.profile ≡ profile.now }
{
    let mut fc = Fc {
        stage: Stage::Init1,
        class: Class::P,
        vc: 0,
        hdr_scale: 0,
        hdr: 64,
        data_scale: 0,
        units: 256,
    };
    let cost = Cost {
        class: Class::P,
        header: 1,
        units: 4,
    };
    let mut broken = 0;
    for class in [Class::P, Class::Np, Class::Cpl] {
        fc.class = class;
        broken += u64::from(!credits.fc(Dir::Down, &fc, 1).is_empty());
    }
    fc.class = Class::P;
    fc.stage = Stage::Init2;
    broken += u64::from(!credits.fc(Dir::Down, &fc, 4).is_empty());
    fc.stage = Stage::Update;
    if profile.vcs == 0 {
        return broken;
    }
    for i in 0..tlps {
        let at = u64::from(i) * 2 + 5;
        broken += u64::from(!credits.tlp(Dir::Up, 0, cost, at).is_empty());
        if i % 32 == 31 {
            fc.hdr = ((u64::from(i) + 65) % 256) as u8;
            fc.units = ((u64::from(i) * 4 + 260) % 4096) as u16;
            broken += u64::from(!credits.fc(Dir::Down, &fc, at + 1).is_empty());
        }
    }
    broken
}
