// The variables' records, from the beginning of an area on.
ghost use Rattle.std.specs.Prelude.{◌≡◌, ◌*◌, ◌≤◌, length};
ghost use Rattle.rules.specs.Limits.{variable_size};
ghost use Rattle.writer.specs.Area.{VariablesPut};

use super::put::put_variable;
use rules::limits::VARIABLE_SIZE;

pub fn put_variables(levels: &[u8], values: &[i32], area: &mut [u8])
    requires { (length levels.now ≡ length values.now) × (variable_size * length levels.now ≤ length area.old) }
    ensures { VariablesPut levels.now values.now area.old area.new }
{
    for i in 0..levels.len() {
        put_variable(area, VARIABLE_SIZE * i, levels[i], values[i]);
    }
}
