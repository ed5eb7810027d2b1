ghost use Rattle.std.specs.Prelude.{◌≡◌, length, map, bytes_eq};
ghost use Rattle.session_rules.specs.Session.{has_name, marked};

use crate::observer::Observer;

/// Sets the marks of all observers of a name, and tells whether there is one.
pub fn mark_named(enabled: &mut [bool], name: &[u8], on: bool, watch: &[Box<dyn Observer>]) -> bool
    requires { length watch.now ≡ length enabled.old }
    ensures found { result ≡ has_name name.now (map (λ b. called b) watch.now) }
    ensures marks { enabled.new ≡ marked name.now on (map (λ b. called b) watch.now) enabled.old }
{
    let mut found = false;
    for (i, member) in watch.iter().enumerate() {
        if is_named(member, name) {
            enabled[i] = on;
            found = true;
        }
    }
    found
}

fn is_named(member: &Box<dyn Observer>, name: &[u8]) -> bool
    ensures { result ≡ bytes_eq (called member.now) name.now }
{
    member.name() == name
}
