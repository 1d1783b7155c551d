//! The scripts.

/// A script with its configuration.
pub struct Script {
    pub name: &'static [u8],
    pub configuration: &'static [u8],
    pub lines: &'static [u8],
}

/// A servant activator that brings fresh registers.
const ACTIVATOR: &[u8] = b"root = \"active\"
[[adapter]]
path = \"/s\"
policies = [\"PERSISTENT\", \"USER_ID\", \"USE_SERVANT_MANAGER\"]
boot = true
[[adapter.rule]]
id = \"*\"
fresh = \"register\"
";

/// The same, created by the adapter activator of the root.
const CREATING: &[u8] = b"root = \"active\"
[[adapter]]
path = \"/\"
children = \"create\"
[[adapter]]
path = \"/s\"
policies = [\"PERSISTENT\", \"USER_ID\", \"USE_SERVANT_MANAGER\"]
[[adapter.rule]]
id = \"*\"
fresh = \"register\"
";

/// One register for every id.
const SHARED: &[u8] = b"root = \"active\"
[[servant]]
name = \"r\"
kind = \"register\"
[[adapter]]
path = \"/m\"
boot = true
policies = [\"PERSISTENT\", \"USER_ID\", \"MULTIPLE_ID\", \"USE_SERVANT_MANAGER\"]
[[adapter.rule]]
id = \"*\"
servant = \"r\"
";

/// The same, for one id at a time.
const UNIQUE: &[u8] = b"root = \"active\"
[[servant]]
name = \"r\"
kind = \"register\"
[[adapter]]
path = \"/u\"
boot = true
policies = [\"PERSISTENT\", \"USER_ID\", \"USE_SERVANT_MANAGER\"]
[[adapter.rule]]
id = \"*\"
servant = \"r\"
";

/// A register whose manager starts holding.
const HELD: &[u8] = b"[[servant]]
name = \"r\"
kind = \"register\"
[[adapter]]
path = \"/h\"
boot = true
policies = [\"PERSISTENT\", \"USER_ID\"]
[[object]]
adapter = \"/h\"
id = \"t:x\"
servant = \"r\"
";

/// A register.
const REGISTER: &[u8] = b"root = \"active\"
[[servant]]
name = \"r\"
kind = \"register\"
[[adapter]]
path = \"/d\"
boot = true
policies = [\"PERSISTENT\", \"USER_ID\"]
[[object]]
adapter = \"/d\"
id = \"t:x\"
servant = \"r\"
";

/// A register for the first worker alone.
const MAIN_THREAD: &[u8] = b"root = \"active\"
[[servant]]
name = \"r\"
kind = \"register\"
[[adapter]]
path = \"/d\"
boot = true
policies = [\"PERSISTENT\", \"USER_ID\", \"MAIN_THREAD_MODEL\"]
[[object]]
adapter = \"/d\"
id = \"t:x\"
servant = \"r\"
";

/// A register for one request at a time.
const SINGLE_THREAD: &[u8] = b"root = \"active\"
[[servant]]
name = \"r\"
kind = \"register\"
[[adapter]]
path = \"/d\"
boot = true
policies = [\"PERSISTENT\", \"USER_ID\", \"SINGLE_THREAD_MODEL\"]
[[object]]
adapter = \"/d\"
id = \"t:x\"
servant = \"r\"
";

/// An adapter activator that makes no child.
const REFUSING: &[u8] = b"root = \"active\"
[[adapter]]
path = \"/\"
children = \"refuse\"
";

/// A register of the root, under a system-made id.
const COUNTER: &[u8] = b"root = \"active\"
[[servant]]
name = \"counter\"
kind = \"register\"
[[object]]
adapter = \"/\"
servant = \"counter\"
";

/// The scripts, in the order in which they are played.
pub static SCRIPTS: [Script; 13] = [
    Script {
        name: b"deactivation between incarnation and run",
        configuration: ACTIVATOR,
        lines: b"ask a 1 /s t:x add i:5
step 0
step 0
admin m deactivate /s t:x
step 1
ask a 2 /s t:x get
step 1
step 0
step 0
step 1
step 0
step 1",
    },
    Script {
        name: b"etherealizing deactivation during an incarnation",
        configuration: ACTIVATOR,
        lines: b"ask a 1 /s t:x add i:2
step 0
admin m manager root deactivate etherealize now
step 1
run 0",
    },
    Script {
        name: b"one servant under two ids",
        configuration: SHARED,
        lines: b"ask a 1 /m t:x add i:1
run 0
ask a 2 /m t:y add i:1
run 0
ask a 3 /m t:x add i:1
step 0
ask a 4 /m t:y add i:1
step 1
admin m deactivate /m t:x
step 2
run 0
run 1
admin m deactivate /m t:y
run 0",
    },
    Script {
        name: b"one servant under a second id where ids are unique",
        configuration: UNIQUE,
        lines: b"ask a 1 /u t:x add i:1
ask a 2 /u t:y add i:1",
    },
    Script {
        name: b"held, then discarded",
        configuration: HELD,
        lines: b"ask a 1 /h t:x add i:1
ask a 2 /h t:x add i:1
ask a 3 /h t:x add i:1
step 0
admin m manager root discard now
run 0
admin m manager root activate
ask a 4 /h t:x get
run 0",
    },
    Script {
        name: b"an adapter activator that refuses, with endpoints",
        configuration: REFUSING,
        lines: b"ask a 1 /moved t:a ping
run 0
admin m forward /moved 127.0.0.1 2900
run 0
ask a 2 /moved t:a ping
run 0
admin m unforward /moved
run 0
ask a 3 /moved t:a ping
run 0
admin m forward / 127.0.0.1 2900
run 0
ask a 4 / h:0000000100000009 ping
run 0",
    },
    Script {
        name: b"destroy with a running request, and create at once",
        configuration: REGISTER,
        lines: b"ask a 1 /d t:x add i:1
step 0
admin m destroy /d keep wait
step 1
admin m create /d
step 1
ask a 2 /d t:x get
step 1
run 0
run 1
ask a 3 /d t:x get
run 0",
    },
    Script {
        name: b"an adapter activator that creates",
        configuration: CREATING,
        lines: b"ask a 1 /s t:x add i:1",
    },
    Script {
        name: b"a main thread",
        configuration: MAIN_THREAD,
        lines: b"ask a 1 /d t:x add i:1
step 1
step 0",
    },
    Script {
        name: b"a single thread",
        configuration: SINGLE_THREAD,
        lines: b"ask a 1 /d t:x add i:1
ask a 2 /d t:x get
step 0
step 1
step 0
step 0
run 1",
    },
    Script {
        name: b"shutdown",
        configuration: ACTIVATOR,
        lines: b"ask a 1 /s t:x add i:3
run 0
admin m shutdown
run 0
ask a 2 /s t:x get",
    },
    Script {
        name: b"what a register answers",
        configuration: COUNTER,
        lines: b"ask a 1 / h:0000000100000001 set i:9223372036854775807
ask a 2 / h:0000000100000001 add i:1
ask a 3 / h:0000000100000001 sing
ask a 4 / h:0000000100000001 add
ask a 5 / h:0000000100000002 get",
    },
    Script {
        name: b"what commands are answered",
        configuration: COUNTER,
        lines: b"admin m activate / counter
admin m reference / counter
admin m deactivate / h:0000000100000001
admin m activate / counter
admin m deactivate / t:zz
admin m create /zz
admin m destroy /zz keep now
admin m manager zz activate
admin m default / counter
admin m activate / zz
admin m activate-id / t:q counter
admin m manger root activate
admin m unforward /q",
    },
];
