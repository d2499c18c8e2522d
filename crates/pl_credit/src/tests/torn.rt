//! What is judged behind a gap.
use super::{Item, Link, endless, infinite, posted, write};
use Dir::{Down, Up};
use Stage::{Init1, Init2, Update};
use pl_base::{Class, Dir, Rule};
use pl_dllp::Stage;
use pl_tlp::Cost;
use std::test::Fail;

#[test]
fn what_a_gap_hides_is_not_judged(rt: HostRuntime) -> Result<(), Fail> {
    let mut link = Link::new();
    link.pass(&rt, &endless());
    link.pass(
        &rt,
        &[
            Item::Gap,
            write(1, 1),
            posted(Update, 5, 5),
            infinite(Down, Init1, Class::Np),
        ],
    );
    // a class out of turn behind an InitFC1 is
    link.breaks(&rt, infinite(Down, Init1, Class::P), Rule::F2, Some(16));
    Ok(())
}

#[test]
fn the_initial_behind_a_gap_is_an_initfc1(rt: HostRuntime) -> Result<(), Fail> {
    let mut link = Link::new();
    link.pass(&rt, &[Item::Gap, posted(Init2, 1, 0), posted(Init1, 2, 0)]);
    link.breaks(&rt, posted(Init2, 1, 0), Rule::F3, Some(3));
    Ok(())
}

#[test]
fn an_initfc2_without_its_initfc1_grants_nothing(rt: HostRuntime) -> Result<(), Fail> {
    let mut link = Link::new();
    link.pass(
        &rt,
        &[
            Item::Gap,
            Item::Gap,
            posted(Init2, 255, 0),
            posted(Update, 255, 9),
            write(1, 1),
        ],
    );
    link.breaks(&rt, posted(Init1, 255, 0), Rule::F8, None);
    Ok(())
}

#[test]
fn a_channel_is_to_be_ready_once_it_is_advertised(rt: HostRuntime) -> Result<(), Fail> {
    let mut link = Link::new();
    link.pass(
        &rt,
        &[
            Item::Gap,
            write(1, 1),
            posted(Init1, 1, 0),
            infinite(Down, Init1, Class::Np),
            infinite(Down, Init1, Class::Cpl),
        ],
    );
    let read = Cost {
        class: Class::Np,
        header: 1,
        units: 0,
    };
    link.breaks(&rt, Item::Tlp(Up, read), Rule::F1, None);
    link.pass(&rt, &[posted(Init2, 1, 0)]);
    // what came before the InitFC1 was used
    link.breaks(&rt, write(1, 1), Rule::F9, Some(3));
    Ok(())
}

#[test]
fn a_link_down_ends_a_torn_span(rt: HostRuntime) -> Result<(), Fail> {
    let mut link = Link::new();
    link.pass(&rt, &[Item::Gap, write(1, 1)]);
    link.credits.reset();
    link.breaks(&rt, write(1, 1), Rule::F1, None);
    Ok(())
}
