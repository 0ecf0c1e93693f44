//! How plans are chosen, as a word of the user's.

ghost use Rattle.std.specs.Prelude.{◌≡◌, ◌≢◌, IfSome, IfNone, slice_get};
ghost use Rattle.plan_chooser.specs.Policies.{policies, policy_name};

/// How plans are chosen. No policy changes an answer.
#[derive(Clone, Copy, Default)]
pub enum Policy {
    /// The plan that reads the fewest rows, by simple rules.
    #[default]
    Auto,
    /// Always in key order through the whole table.
    Scan,
    /// Through hash tables.
    Hash,
    /// Through trees.
    Tree,
    /// By merging trees.
    Merge,
}

/// The names of the policies, in the order of their numbers.
pub const POLICY_NAMES: &[&str] = &["auto", "scan", "hash", "tree", "merge"];

impl Policy {
    ghost use Rattle.plan_chooser.specs.declared.policy.Policy.{Policy};

    /// The policy of that name, where it is one of theirs.
    pub fn named(name: &str) -> Option<Policy>
        ensures named { IfSome result (λ policy. policy_name policy ≡ name.now) }
        ensures none { IfNone result ((policy : Policy) → policy_name policy ≢ name.now) }
    {
        match name {
            "auto" => Some(Policy::Auto),
            "scan" => Some(Policy::Scan),
            "hash" => Some(Policy::Hash),
            "tree" => Some(Policy::Tree),
            "merge" => Some(Policy::Merge),
            _ => None,
        }
    }

    /// The policy of that number, counted from 0, where it is one of theirs.
    pub fn numbered(number: u32) -> Option<Policy>
        ensures { result ≡ slice_get policies number }
    {
        match number {
            0 => Some(Policy::Auto),
            1 => Some(Policy::Scan),
            2 => Some(Policy::Hash),
            3 => Some(Policy::Tree),
            4 => Some(Policy::Merge),
            _ => None,
        }
    }
}
