//! The numbers of a field's hardware inputs.

ghost use Rattle.std.specs.Prelude.{◌≡◌, ◌≤◌, ◌<◌, ◌+◌};
ghost use Rattle.rdl_map.specs.Signals as spec;

use rdl_fields::named::Inputs;

/// The number of each hardware input that a field has.
#[derive(Clone, Copy, Drop)]
pub struct InputNumbers {
    pub data_in: Option<u32>,
    pub we: Option<u32>,
    pub wel: Option<u32>,
    pub hwset: Option<u32>,
    pub hwclr: Option<u32>,
    pub swwe: Option<u32>,
    pub swwel: Option<u32>,
    pub incr: Option<u32>,
    pub decr: Option<u32>,
}

fn count_if(has: bool) -> u32
    ensures count { result ≡ spec.count_if has }
    ensures bound { result ≤ 1 }
{
    if has { 1 } else { 0 }
}

fn number_if(has: bool, number: u32) -> Option<u32>
    ensures { result ≡ spec.number_if has number }
{
    if has { Some(number) } else { None }
}

/// The numbers of the inputs of a field, with so many of other fields before them.
pub fn numbers_from(base: u32, inputs: Inputs) -> InputNumbers
    requires { base ≤ 4294967286 }
    ensures { result ≡ spec.numbers_from base inputs }
{
    let we = base + count_if(inputs.has_data);
    let wel = we + count_if(inputs.we);
    let hwset = wel + count_if(inputs.wel);
    let hwclr = hwset + count_if(inputs.hwset);
    let swwe = hwclr + count_if(inputs.hwclr);
    let swwel = swwe + count_if(inputs.swwe);
    let incr = swwel + count_if(inputs.swwel);
    let decr = incr + count_if(inputs.incr);
    InputNumbers {
        data_in: number_if(inputs.has_data, base),
        we: number_if(inputs.we, we),
        wel: number_if(inputs.wel, wel),
        hwset: number_if(inputs.hwset, hwset),
        hwclr: number_if(inputs.hwclr, hwclr),
        swwe: number_if(inputs.swwe, swwe),
        swwel: number_if(inputs.swwel, swwel),
        incr: number_if(inputs.incr, incr),
        decr: number_if(inputs.decr, decr),
    }
}

/// How many inputs a field has.
pub fn count_of(inputs: Inputs) -> u32
    ensures count { result ≡ spec.count_of inputs }
    ensures bound { result ≤ 9 }
{
    count_if(inputs.has_data)
        + count_if(inputs.we)
        + count_if(inputs.wel)
        + count_if(inputs.hwset)
        + count_if(inputs.hwclr)
        + count_if(inputs.swwe)
        + count_if(inputs.swwel)
        + count_if(inputs.incr)
        + count_if(inputs.decr)
}
