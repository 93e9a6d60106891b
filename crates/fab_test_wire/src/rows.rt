//! The worked world and the worked rows, request by request.

/// The worked world: three initiators, the second and the third at one place, and two targets of one
/// node; two hosts, an array, two volumes.
pub const WORLD: &[&str] = &[
    r#"ada POST /imports/A port_name,node_name,domain,port
10:00:00:00:00:00:00:01,20:00:00:00:00:00:00:01,1,1
10:00:00:00:00:00:00:02,20:00:00:00:00:00:00:02,12,5
10:00:00:00:00:00:00:03,20:00:00:00:00:00:00:03,12,5
50:00:00:00:00:00:00:01,50:00:00:00:00:00:00:00,1,2
50:00:00:00:00:00:00:02,50:00:00:00:00:00:00:00,1,3
 -> 200 OK: {"revision":1}"#,
    r#"ada PUT /hosts/db1 {"ports":["10:00:00:00:00:00:00:01"],"tenant":"blue"} -> 200 OK: {"revision":2}"#,
    r#"ada PUT /hosts/db2 {"ports":["10:00:00:00:00:00:00:02","10:00:00:00:00:00:00:03"],"tenant":"green"} -> 200 OK: {"revision":3}"#,
    r#"ada PUT /arrays/arr1 {"ports":["50:00:00:00:00:00:00:01","50:00:00:00:00:00:00:02"],"tenant":"store"} -> 200 OK: {"revision":4}"#,
    r#"ada PUT /volumes/v1 {"array":"arr1","bytes":1073741824,"tenant":"blue"} -> 200 OK: {"revision":5}"#,
    r#"ada PUT /volumes/v2 {"array":"arr1","bytes":1073741824,"tenant":"green"} -> 200 OK: {"revision":6}"#,
];

/// The first worked plan is staged: the first host gets the first volume.
pub const FIRST_STAGED: &str = r#"ada PUT /plans/p1 alias.put A disk wwpn=50:00:00:00:00:00:00:01
zone.put A z1 wwpn=10:00:00:00:00:00:00:01 alias=disk
set.put A s1 z1
activate A s1
hg.put hosts1 blue db1
sg.new g1 blue arr1
sg.host g1 hosts1
sg.target g1 50:00:00:00:00:00:00:01
sg.map g1 0 v1
sg.expose g1
 -> 200 OK: {"plan":"p1","steps":10}"#;

/// It is tried.
pub const FIRST_TRIED: &str =
    r#"ada GET /plans/p1/dryrun -> 200 OK: {"gained":[{"fabric":"A","initiator":"10:00:00:00:00:00:00:01","lun":0,"target":"50:00:00:00:00:00:00:01","volume":"v1"}],"lost":[],"plan":"p1"}"#;

/// It is activated.
pub const FIRST_ACTIVATED: &str =
    r#"ada POST /plans/p1/activate -> 200 OK: {"gained":[{"fabric":"A","initiator":"10:00:00:00:00:00:00:01","lun":0,"target":"50:00:00:00:00:00:00:01","volume":"v1"}],"lost":[],"plan":"p1","revision":7}"#;

/// The paths of its host.
pub const FIRST_PATHS: &str =
    r#"ada GET /paths/db1 -> 200 OK: {"host":"db1","paths":[{"fabric":"A","initiator":"10:00:00:00:00:00:00:01","lun":0,"target":"50:00:00:00:00:00:00:01","volume":"v1"}]}"#;

/// The question whether the ports of its path may communicate.
pub const FIRST_JOINED: &str =
    r#"ada GET /joined/10:00:00:00:00:00:00:01/50:00:00:00:00:00:00:01 -> 200 OK: {"joined":true,"why":"zone","zone":"z1"}"#;

/// The first worked plan staged, tried and activated, and what is read then.
pub const FIRST_PLAN: &[&str] = &[
    FIRST_STAGED,
    FIRST_TRIED,
    FIRST_ACTIVATED,
    FIRST_PATHS,
    FIRST_JOINED,
];

/// The import of a header alone after the first plan.
pub const NO_PORTS: &str = r#"ada POST /imports/A port_name,node_name,domain,port
 -> 200 OK: {"revision":8}"#;

/// An alias put anew moves no path before the set is activated again.
pub const ALIAS_PUT_ANEW: &[&str] = &[
    r#"ada PUT /plans/p2 alias.put A disk wwpn=50:00:00:00:00:00:00:02
 -> 200 OK: {"plan":"p2","steps":1}"#,
    r#"ada POST /plans/p2/activate -> 200 OK: {"gained":[],"lost":[],"plan":"p2","revision":8}"#,
    r#"ada PUT /plans/p3 activate A s1
 -> 200 OK: {"plan":"p3","steps":1}"#,
    r#"ada POST /plans/p3/activate -> 200 OK: {"gained":[],"lost":[{"fabric":"A","initiator":"10:00:00:00:00:00:00:01","lun":0,"target":"50:00:00:00:00:00:00:01","volume":"v1"}],"plan":"p3","revision":9}"#,
];

/// A second zone of the path's ports beside the first, and then alone: a path stays while one is active.
pub const ANOTHER_CAUSE: &[&str] = &[
    r#"ada PUT /plans/p2 zone.put A z2 wwpn=10:00:00:00:00:00:00:01 wwpn=50:00:00:00:00:00:00:01
set.put A s1 z1 z2
activate A s1
 -> 200 OK: {"plan":"p2","steps":3}"#,
    r#"ada POST /plans/p2/activate -> 200 OK: {"gained":[],"lost":[],"plan":"p2","revision":8}"#,
    r#"ada PUT /plans/p3 set.put A s2 z2
activate A s2
 -> 200 OK: {"plan":"p3","steps":2}"#,
    r#"ada POST /plans/p3/activate -> 200 OK: {"gained":[],"lost":[],"plan":"p3","revision":9}"#,
];

/// The default zone permits, and the group has the other target; then the initiator is in no zone.
pub const DEFAULT_ZONE: &[&str] = &[
    r#"ada PUT /plans/p2 default A permit
sg.target g1 50:00:00:00:00:00:00:02
 -> 200 OK: {"plan":"p2","steps":2}"#,
    r#"ada POST /plans/p2/activate -> 200 OK: {"gained":[],"lost":[],"plan":"p2","revision":8}"#,
    r#"ada PUT /plans/p3 zone.put A z1 alias=disk
activate A s1
 -> 200 OK: {"plan":"p3","steps":2}"#,
    r#"ada POST /plans/p3/activate -> 200 OK: {"gained":[{"fabric":"A","initiator":"10:00:00:00:00:00:00:01","lun":0,"target":"50:00:00:00:00:00:00:02","volume":"v1"}],"lost":[{"fabric":"A","initiator":"10:00:00:00:00:00:00:01","lun":0,"target":"50:00:00:00:00:00:00:01","volume":"v1"}],"plan":"p3","revision":9}"#,
];

/// The second worked plan after the first: the second host gets the second volume, by a zone of a
/// place at which both its ports are logged in.
pub const SECOND_PLAN: &[&str] = &[
    r#"ada PUT /plans/p2 zone.put A z3 dp=12,5 wwpn=50:00:00:00:00:00:00:01
set.put A s1 z1 z3
activate A s1
hg.put hosts2 green db2
sg.new g2 green arr1
sg.host g2 hosts2
sg.target g2 50:00:00:00:00:00:00:01
sg.map g2 0 v2
sg.expose g2
 -> 200 OK: {"plan":"p2","steps":9}"#,
    r#"ada POST /plans/p2/activate -> 200 OK: {"gained":[{"fabric":"A","initiator":"10:00:00:00:00:00:00:02","lun":0,"target":"50:00:00:00:00:00:00:01","volume":"v2"},{"fabric":"A","initiator":"10:00:00:00:00:00:00:03","lun":0,"target":"50:00:00:00:00:00:00:01","volume":"v2"}],"lost":[],"plan":"p2","revision":8}"#,
];

/// The world's import again after the second plan.
pub const PORTS_AGAIN: &str = r#"ada POST /imports/A port_name,node_name,domain,port
10:00:00:00:00:00:00:01,20:00:00:00:00:00:00:01,1,1
10:00:00:00:00:00:00:02,20:00:00:00:00:00:00:02,12,5
10:00:00:00:00:00:00:03,20:00:00:00:00:00:00:03,12,5
50:00:00:00:00:00:00:01,50:00:00:00:00:00:00:00,1,2
50:00:00:00:00:00:00:02,50:00:00:00:00:00:00:00,1,3
 -> 200 OK: {"revision":9}"#;

/// A zone of a node after the second plan, by which both its ports communicate.
pub const NODE_ZONED: &[&str] = &[
    r#"ada PUT /plans/p3 zone.put A z4 wwnn=50:00:00:00:00:00:00:00
set.put A s1 z1 z3 z4
activate A s1
 -> 200 OK: {"plan":"p3","steps":3}"#,
    r#"ada GET /joined/50:00:00:00:00:00:00:01/50:00:00:00:00:00:00:02 -> 200 OK: {"joined":false}"#,
    r#"ada POST /plans/p3/activate -> 200 OK: {"gained":[],"lost":[],"plan":"p3","revision":9}"#,
    r#"ada GET /joined/50:00:00:00:00:00:00:01/50:00:00:00:00:00:00:02 -> 200 OK: {"joined":true,"why":"zone","zone":"z4"}"#,
];

/// Approvals by the author, by one caller twice, by two, and of an earlier revision.
pub const APPROVALS: &[&str] = &[
    r#"ada@349200 PUT /plans/q1 default B deny
 -> 200 OK: {"plan":"q1","steps":1}"#,
    r#"ada@349200 POST /plans/q1/approve -> 409 Conflict: {"code":19,"error":"own-plan"}"#,
    r#"bob@349200 POST /plans/q1/approve -> 200 OK: {"approvals":1,"plan":"q1","revision":6}"#,
    r#"bob@349200 POST /plans/q1/approve -> 200 OK: {"approvals":1,"plan":"q1","revision":6}"#,
    r#"ada@349200 POST /plans/q1/activate -> 403 Forbidden: {"code":8,"error":"denied","need":"approvals","rule":3,"rule_name":"two-eyes"}"#,
    r#"dan@349200 POST /plans/q1/approve -> 200 OK: {"approvals":2,"plan":"q1","revision":6}"#,
    r#"ada@349200 POST /imports/A port_name,node_name,domain,port
10:00:00:00:00:00:00:01,20:00:00:00:00:00:00:01,1,1
10:00:00:00:00:00:00:02,20:00:00:00:00:00:00:02,12,5
10:00:00:00:00:00:00:03,20:00:00:00:00:00:00:03,12,5
50:00:00:00:00:00:00:01,50:00:00:00:00:00:00:00,1,2
50:00:00:00:00:00:00:02,50:00:00:00:00:00:00:00,1,3
 -> 200 OK: {"revision":7}"#,
    r#"ada@349200 POST /plans/q1/activate -> 403 Forbidden: {"code":8,"error":"denied","need":"approvals","rule":3,"rule_name":"two-eyes"}"#,
];

/// Two volumes at one unit, and one in place of the other.
pub const UNIT_CLASH: &[&str] = &[
    r#"ada PUT /plans/p2 sg.new g3 blue arr1
sg.host g3 hosts1
sg.target g3 50:00:00:00:00:00:00:01
sg.map g3 0 v2
sg.expose g3
 -> 200 OK: {"plan":"p2","steps":5}"#,
    r#"ada POST /plans/p2/activate -> 409 Conflict: {"code":14,"error":"unit-clash","host":"db1","lun":0,"step":0,"target":"50:00:00:00:00:00:00:01"}"#,
    r#"ada PUT /plans/p3 sg.new g3 blue arr1
sg.host g3 hosts1
sg.target g3 50:00:00:00:00:00:00:01
sg.map g3 0 v2
sg.expose g3
sg.unmap g1 0
 -> 200 OK: {"plan":"p3","steps":6}"#,
    r#"ada POST /plans/p3/activate -> 200 OK: {"gained":[{"fabric":"A","initiator":"10:00:00:00:00:00:00:01","lun":0,"target":"50:00:00:00:00:00:00:01","volume":"v2"}],"lost":[{"fabric":"A","initiator":"10:00:00:00:00:00:00:01","lun":0,"target":"50:00:00:00:00:00:00:01","volume":"v1"}],"plan":"p3","revision":8}"#,
];

/// A second plan, which takes a volume away.
pub const UNMAPPED: &[&str] = &[
    r#"ada PUT /plans/p2 sg.unmap g1 0
 -> 200 OK: {"plan":"p2","steps":1}"#,
    r#"ada POST /plans/p2/activate -> 200 OK: {"gained":[],"lost":[{"fabric":"A","initiator":"10:00:00:00:00:00:00:01","lun":0,"target":"50:00:00:00:00:00:00:01","volume":"v1"}],"plan":"p2","revision":8}"#,
];

/// A rollback once the volume is gone.
pub const VOLUME_GONE: &[&str] = &[
    r#"ada DELETE /volumes/v1 -> 200 OK: {"revision":9}"#,
    r#"ada POST /plans/p2/rollback -> 409 Conflict: {"code":18,"error":"gone","name":"v1"}"#,
    r#"ada POST /plans/p1/rollback -> 409 Conflict: {"code":17,"error":"not-last","last":"p2"}"#,
    r#"ada POST /plans/p2/activate -> 409 Conflict: {"code":16,"error":"wrong-state","state":"active"}"#,
];

/// A rollback while the volume is there.
pub const ROLLED_BACK: &[&str] = &[
    r#"ada POST /plans/p2/rollback -> 200 OK: {"gained":[{"fabric":"A","initiator":"10:00:00:00:00:00:00:01","lun":0,"target":"50:00:00:00:00:00:00:01","volume":"v1"}],"lost":[],"plan":"p2","revision":9}"#,
];

/// The rollback of the first plan after that, and what is there no more.
pub const FIRST_UNDONE: &[&str] = &[
    r#"ada POST /plans/p2/activate -> 409 Conflict: {"code":16,"error":"wrong-state","state":"rolled-back"}"#,
    r#"ada POST /plans/p2/rollback -> 409 Conflict: {"code":16,"error":"wrong-state","state":"rolled-back"}"#,
    r#"ada POST /plans/p1/rollback -> 200 OK: {"gained":[],"lost":[{"fabric":"A","initiator":"10:00:00:00:00:00:00:01","lun":0,"target":"50:00:00:00:00:00:00:01","volume":"v1"}],"plan":"p1","revision":10}"#,
    r#"ada GET /joined/10:00:00:00:00:00:00:01/50:00:00:00:00:00:00:01 -> 200 OK: {"joined":false}"#,
    r#"ada GET /groups/g1 -> 404 Not Found: {"code":9,"error":"not-found"}"#,
    r#"ada DELETE /hosts/db1 -> 200 OK: {"revision":11}"#,
];

/// The address of the first initiator after the first plan: it is told, and told in another way, and a zone
/// has it in place of the port.
pub const ADDRESS_TOLD: &[&str] = &[
    r#"ada POST /imports/A port_name,node_name,domain,port,address
10:00:00:00:00:00:00:01,20:00:00:00:00:00:00:01,1,1,010100
10:00:00:00:00:00:00:02,20:00:00:00:00:00:00:02,12,5,
10:00:00:00:00:00:00:03,20:00:00:00:00:00:00:03,12,5,
50:00:00:00:00:00:00:01,50:00:00:00:00:00:00:00,1,2,
50:00:00:00:00:00:00:02,50:00:00:00:00:00:00:00,1,3,
 -> 200 OK: {"revision":8}"#,
    r#"ada POST /imports/A port_name,node_name,domain,port,address
10:00:00:00:00:00:00:01,20:00:00:00:00:00:00:01,1,1,0x010100
10:00:00:00:00:00:00:02,20:00:00:00:00:00:00:02,12,5,
10:00:00:00:00:00:00:03,20:00:00:00:00:00:00:03,12,5,
50:00:00:00:00:00:00:01,50:00:00:00:00:00:00:00,1,2,
50:00:00:00:00:00:00:02,50:00:00:00:00:00:00:00,1,3,
 -> 200 OK: {"revision":9}"#,
    r#"ada PUT /plans/p2 zone.put A z1 id=010100 alias=disk
activate A s1
 -> 200 OK: {"plan":"p2","steps":2}"#,
    r#"ada POST /plans/p2/activate -> 200 OK: {"gained":[],"lost":[],"plan":"p2","revision":10}"#,
];

/// After that it changes, and is left out; then the zone has the port again.
pub const ADDRESS_CHANGED: &[&str] = &[
    r#"ada POST /imports/A port_name,node_name,domain,port,address
10:00:00:00:00:00:00:01,20:00:00:00:00:00:00:01,1,1,010101
10:00:00:00:00:00:00:02,20:00:00:00:00:00:00:02,12,5,
10:00:00:00:00:00:00:03,20:00:00:00:00:00:00:03,12,5,
50:00:00:00:00:00:00:01,50:00:00:00:00:00:00:00,1,2,
50:00:00:00:00:00:00:02,50:00:00:00:00:00:00:00,1,3,
 -> 200 OK: {"revision":11}"#,
    r#"ada POST /imports/A port_name,node_name,domain,port
10:00:00:00:00:00:00:01,20:00:00:00:00:00:00:01,1,1
10:00:00:00:00:00:00:02,20:00:00:00:00:00:00:02,12,5
10:00:00:00:00:00:00:03,20:00:00:00:00:00:00:03,12,5
50:00:00:00:00:00:00:01,50:00:00:00:00:00:00:00,1,2
50:00:00:00:00:00:00:02,50:00:00:00:00:00:00:00,1,3
 -> 200 OK: {"revision":12}"#,
    r#"ada PUT /plans/p3 zone.put A z1 wwpn=10:00:00:00:00:00:00:01 alias=disk
activate A s1
 -> 200 OK: {"plan":"p3","steps":2}"#,
    r#"ada POST /plans/p3/activate -> 200 OK: {"gained":[{"fabric":"A","initiator":"10:00:00:00:00:00:00:01","lun":0,"target":"50:00:00:00:00:00:00:01","volume":"v1"}],"lost":[],"plan":"p3","revision":13}"#,
];
