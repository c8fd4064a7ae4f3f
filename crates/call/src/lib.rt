// The call: definitions and theorems in specs/; here is the type that its definition shares with the code.
#![tactic(auto)]

// What a caller may choose. merge: tied variables get one number (merge_equivalent_variables).
#[derive(Drop)]
pub struct Choices {
    pub merge: bool,
}
