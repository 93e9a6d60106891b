//! The sample policy of a trial.

/// The policy that `sandesk once` takes where no file is given, and that tests take. It keeps nothing
/// secret: the tokens of its callers are `t-` and their names.
///
/// An operator and two approvers who hold every tenant (ada, bob and dan), an operator of `blue`
/// (cyd), and a caller without a role (eve). Activations in fabric B need two fresh approvals and an
/// open window.
pub const TRIAL_POLICY: &str = "\
    [[callers]]\n\
    name = \"ada\"\n\
    token = \"t-ada\"\n\
    roles = [\"operator\"]\n\
    tenants = \"*\"\n\
    [[callers]]\n\
    name = \"bob\"\n\
    token = \"t-bob\"\n\
    roles = [\"approver\"]\n\
    tenants = \"*\"\n\
    [[callers]]\n\
    name = \"cyd\"\n\
    token = \"t-cyd\"\n\
    roles = [\"operator\"]\n\
    tenants = [\"blue\"]\n\
    [[callers]]\n\
    name = \"dan\"\n\
    token = \"t-dan\"\n\
    roles = [\"approver\"]\n\
    tenants = \"*\"\n\
    [[callers]]\n\
    name = \"eve\"\n\
    token = \"t-eve\"\n\
    roles = []\n\
    tenants = [\"green\"]\n\
    [[windows]]\n\
    name = \"early\"\n\
    weekly = [[60, 120]]\n\
    freeze = [[350000, 351000]]\n\
    [[rules]]\n\
    name = \"ops\"\n\
    actions = [\"import\", \"inventory\", \"stage\", \"withdraw\", \"dryrun\", \"activate\", \"rollback\"]\n\
    role = \"operator\"\n\
    [[rules]]\n\
    name = \"signers\"\n\
    actions = [\"approve\"]\n\
    [[rules]]\n\
    name = \"two-eyes\"\n\
    actions = [\"activate\"]\n\
    fabric = \"B\"\n\
    approvals = 2\n\
    approver = \"approver\"\n\
    fresh = true\n\
    [[rules]]\n\
    name = \"quiet\"\n\
    actions = [\"activate\"]\n\
    fabric = \"B\"\n\
    window = \"early\"\n\
    [[rules]]\n\
    name = \"own\"\n\
    actions = [\"import\", \"inventory\", \"activate\", \"rollback\"]\n\
    scope = \"own\"\n\
";
