//! The words for each fault of a policy's text.
use fab_policy::Policy;
use fab_policy_text::ReadPolicy;
use std::process::Abort;

/// Texts, and how the fault of each is told: three that are no TOML, and one for each other fault.
const FAULTS: &[(&str, &str)] = &[
    ("callers = \n", "the text is no TOML"),
    ("a = 1\na = 2\n", "the text is no TOML"),
    ("[[callers]\n", "the text is no TOML"),
    (
        "[[rules]]\nname = \"r\"\nactions = [\"stage\"]\nfresh = true\n",
        "`approvals` is missing",
    ),
    (
        "[[windows]]\nname = \"w\"\nweekly = [[120, 60]]\n",
        "`weekly` has a wrong value",
    ),
    (
        "[[rules]]\nname = \"r\"\nactions = [\"stage\"]\nwindow = \"w\"\n",
        "`w` is not known",
    ),
    (
        "[[callers]]\nname = \"a\"\ntoken = \"t\"\nroles = []\ntenants = \"*\"\n[[callers]]\nname = \"b\"\ntoken = \"t\"\nroles = []\ntenants = \"*\"\n",
        "`b` is repeated",
    ),
    (
        "[[callers]]\nname = \"a\"\ntoken = \"t\"\nroles = [\"x\",\"x\",\"x\",\"x\",\"x\",\"x\",\"x\",\"x\",\"x\",\"x\",\"x\",\"x\",\"x\",\"x\",\"x\",\"x\",\"x\"]\ntenants = \"*\"\n",
        "`roles` is too long",
    ),
];

/// Asserts the fault of a text, in words.
fn assert_fault(rt: &(impl Abort + AllocGlobal), text: &str, fault: &str) {
    let found = Policy::read(rt.alloc(), text).err().expect(rt, "a fault");
    let told = found.to_string(rt.alloc()).expect(rt, "memory");
    assert_eq!(rt; told.as_str(), fault);
}

#[test]
fn each_fault(rt: HostRuntime) {
    for &(text, fault) in FAULTS {
        assert_fault(&rt, text, fault);
    }
}
