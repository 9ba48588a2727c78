//! A count of two steps.

ghost use Rattle.std.specs.Prelude.{◌≡◌};

use fib_addr::Steps;
use std::marker::Brand;
use std::sync::ledger::{Blank, Ledger};
use std::test::Fail;

fn two_steps<L: Ledger>(blank: Blank) -> Steps<L>
    requires name { blank.name ≡ L.name }
    requires parts { blank.parts ≡ L.parts }
    requires one { blank.parts ≡ 1 }
    ensures { result ≡ 2 }
{
    let mut steps = Steps::<L>::start(blank);
    steps.tick();
    steps.tick();
    steps
}

fn start_over<L: Ledger>(blank: Blank)
    requires name { blank.name ≡ L.name }
    requires parts { blank.parts ≡ L.parts }
    requires one { blank.parts ≡ 1 }
{
    let _steps = two_steps::<L>(blank);
}

fn take_two() {
    start_over::<Brand>(Blank::new(1))
}

#[test]
fn takes_two_steps(_rt: HostRuntime) -> Result<(), Fail> {
    take_two();
    Ok(())
}
