//! The table of the desk: its paths, their methods, what each asks for, and the body that goes with
//! it.

ghost use Rattle.std.specs.Prelude.{◌≡◌, [], ◌∷◌, codes};
ghost use Rattle.std.specs.Str.{bytes_eq};
ghost use Rattle.fab_wire_base.specs.Table.{all_routes, path_of, kind_in, kind_at, allow_line_of, form_of, is_body};

use http::Method;

/// What a request asks for.
#[derive(Clone, Copy)]
pub enum Kind {
    /// Takes over the port list of a fabric.
    Import,
    /// Shows a port.
    ShowPort,
    /// Forgets a host and the ports that it holds.
    DropHost,
    /// Shows a host.
    ShowHost,
    /// Sets the ports and the tenant of a host.
    PutHost,
    /// Forgets an array and the ports that it holds.
    DropArray,
    /// Shows an array.
    ShowArray,
    /// Sets the ports and the tenant of an array.
    PutArray,
    /// Forgets a volume.
    DropVolume,
    /// Shows a volume.
    ShowVolume,
    /// Sets the array, the capacity and the tenant of a volume.
    PutVolume,
    /// Withdraws a plan.
    Withdraw,
    /// Shows a plan.
    ShowPlan,
    /// Stages a plan.
    Stage,
    /// Approves a plan.
    Approve,
    /// Lists the paths that a plan would gain and lose.
    DryRun,
    /// Activates a plan.
    Activate,
    /// Takes an activated plan back.
    Rollback,
    /// Lists the paths of a host.
    Paths,
    /// Asks whether two ports may communicate.
    Joined,
    /// Shows the active zone set of a fabric.
    ShowActive,
    /// Shows an alias.
    ShowAlias,
    /// Shows a zone.
    ShowZone,
    /// Shows a zone set.
    ShowSet,
    /// Shows a host group.
    ShowHostGroup,
    /// Shows a storage group.
    ShowGroup,
}

/// The form of the body that a request takes.
#[derive(Clone, Copy)]
pub enum Form {
    /// It takes none.
    Nothing,
    /// The port list of a fabric (CSV).
    PortList,
    /// The steps of a plan.
    PlanText,
    /// The ports and the tenant of a host or an array (JSON).
    Holder,
    /// The array, the capacity and the tenant of a volume (JSON).
    Volume,
}

/// A path of the table.
#[derive(Clone, Copy, Debug)]
pub enum Route {
    /// `/imports/{fabric}`
    Imports,
    /// `/ports/{wwn}`
    Ports,
    /// `/hosts/{name}`
    Hosts,
    /// `/arrays/{name}`
    Arrays,
    /// `/volumes/{name}`
    Volumes,
    /// `/plans/{name}`
    Plans,
    /// `/plans/{name}/approve`
    Approve,
    /// `/plans/{name}/dryrun`
    DryRun,
    /// `/plans/{name}/activate`
    Activate,
    /// `/plans/{name}/rollback`
    Rollback,
    /// `/paths/{host}`
    Paths,
    /// `/joined/{p}/{q}`
    Joined,
    /// `/active/{fabric}`
    Active,
    /// `/aliases/{fabric}/{name}`
    Aliases,
    /// `/zones/{fabric}/{name}`
    Zones,
    /// `/sets/{fabric}/{name}`
    Sets,
    /// `/hostgroups/{name}`
    HostGroups,
    /// `/groups/{name}`
    Groups,
}

/// Every route, in the order of the table.
pub const ROUTES: [Route; 18] = [
    Route::Imports,
    Route::Ports,
    Route::Hosts,
    Route::Arrays,
    Route::Volumes,
    Route::Plans,
    Route::Approve,
    Route::DryRun,
    Route::Activate,
    Route::Rollback,
    Route::Paths,
    Route::Joined,
    Route::Active,
    Route::Aliases,
    Route::Zones,
    Route::Sets,
    Route::HostGroups,
    Route::Groups,
];

/// Every route, in the order of the table.
pub fn every_route() -> [Route; 18]
    ensures { result ≡ all_routes }
{
    ROUTES
}

impl Route {
    /// The path of a route, with its captured parts in braces.
    pub fn path(self) -> &'static str
        ensures { result.now ≡ path_of self }
    {
        match self {
            Route::Imports => "/imports/{fabric}",
            Route::Ports => "/ports/{wwn}",
            Route::Hosts => "/hosts/{name}",
            Route::Arrays => "/arrays/{name}",
            Route::Volumes => "/volumes/{name}",
            Route::Plans => "/plans/{name}",
            Route::Approve => "/plans/{name}/approve",
            Route::DryRun => "/plans/{name}/dryrun",
            Route::Activate => "/plans/{name}/activate",
            Route::Rollback => "/plans/{name}/rollback",
            Route::Paths => "/paths/{host}",
            Route::Joined => "/joined/{p}/{q}",
            Route::Active => "/active/{fabric}",
            Route::Aliases => "/aliases/{fabric}/{name}",
            Route::Zones => "/zones/{fabric}/{name}",
            Route::Sets => "/sets/{fabric}/{name}",
            Route::HostGroups => "/hostgroups/{name}",
            Route::Groups => "/groups/{name}",
        }
    }

    /// What a method asks for at a route, given by its name.
    pub fn kind(self, method: &[u8]) -> Option<Kind>
        ensures { result ≡ kind_at self method.now }
    {
        match self {
            Route::Imports => posts(method, Kind::Import),
            Route::Ports => gets(method, Kind::ShowPort),
            Route::Hosts => one_of(method, Kind::DropHost, Kind::ShowHost, Kind::PutHost),
            Route::Arrays => one_of(method, Kind::DropArray, Kind::ShowArray, Kind::PutArray),
            Route::Volumes => one_of(method, Kind::DropVolume, Kind::ShowVolume, Kind::PutVolume),
            Route::Plans => one_of(method, Kind::Withdraw, Kind::ShowPlan, Kind::Stage),
            Route::Approve => posts(method, Kind::Approve),
            Route::DryRun => gets(method, Kind::DryRun),
            Route::Activate => posts(method, Kind::Activate),
            Route::Rollback => posts(method, Kind::Rollback),
            Route::Paths => gets(method, Kind::Paths),
            Route::Joined => gets(method, Kind::Joined),
            Route::Active => gets(method, Kind::ShowActive),
            Route::Aliases => gets(method, Kind::ShowAlias),
            Route::Zones => gets(method, Kind::ShowZone),
            Route::Sets => gets(method, Kind::ShowSet),
            Route::HostGroups => gets(method, Kind::ShowHostGroup),
            Route::Groups => gets(method, Kind::ShowGroup),
        }
    }

    /// The header line that lists the methods that a route takes (RFC 9110, section 10.2.1).
    pub fn allow_line(self) -> &'static str
        ensures { result.now ≡ allow_line_of self }
    {
        match self {
            Route::Imports => "Allow: POST\r\n",
            Route::Ports => "Allow: GET\r\n",
            Route::Hosts => "Allow: DELETE, GET, PUT\r\n",
            Route::Arrays => "Allow: DELETE, GET, PUT\r\n",
            Route::Volumes => "Allow: DELETE, GET, PUT\r\n",
            Route::Plans => "Allow: DELETE, GET, PUT\r\n",
            Route::Approve => "Allow: POST\r\n",
            Route::DryRun => "Allow: GET\r\n",
            Route::Activate => "Allow: POST\r\n",
            Route::Rollback => "Allow: POST\r\n",
            Route::Paths => "Allow: GET\r\n",
            Route::Joined => "Allow: GET\r\n",
            Route::Active => "Allow: GET\r\n",
            Route::Aliases => "Allow: GET\r\n",
            Route::Zones => "Allow: GET\r\n",
            Route::Sets => "Allow: GET\r\n",
            Route::HostGroups => "Allow: GET\r\n",
            Route::Groups => "Allow: GET\r\n",
        }
    }
}

impl Kind {
    /// The form of the body that a kind takes.
    pub fn form(self) -> Form
        ensures { result ≡ form_of self }
    {
        match self {
            Kind::Import => Form::PortList,
            Kind::Stage => Form::PlanText,
            Kind::PutHost => Form::Holder,
            Kind::PutArray => Form::Holder,
            Kind::PutVolume => Form::Volume,
            _ => Form::Nothing,
        }
    }

    /// Whether a kind takes a body.
    pub fn has_body(self) -> bool
        ensures { result ≡ is_body (form_of self) }
    {
        !matches!(self.form(), Form::Nothing)
    }
}

/// The kind, if the method is this one.
fn only(method: &[u8], wanted: &Method, kind: Kind) -> Option<Kind>
    ensures { result ≡ kind_in ((wanted.now, kind) ∷ []) method.now }
{
    if is_method(wanted, method) {
        Some(kind)
    } else {
        None
    }
}

/// The kind, if the method is `GET`.
fn gets(method: &[u8], kind: Kind) -> Option<Kind>
    ensures { result ≡ kind_in ((codes "GET", kind) ∷ []) method.now }
{
    only(method, &Method::GET, kind)
}

/// The kind, if the method is `POST`.
fn posts(method: &[u8], kind: Kind) -> Option<Kind>
    ensures { result ≡ kind_in ((codes "POST", kind) ∷ []) method.now }
{
    only(method, &Method::POST, kind)
}

/// The kind of a method of three.
fn one_of(method: &[u8], delete: Kind, get: Kind, put: Kind) -> Option<Kind>
    ensures { result ≡ kind_in ((codes "DELETE", delete) ∷ (codes "GET", get) ∷ (codes "PUT", put) ∷ []) method.now }
{
    if is_method(&Method::DELETE, method) {
        Some(delete)
    } else if is_method(&Method::GET, method) {
        Some(get)
    } else if is_method(&Method::PUT, method) {
        Some(put)
    } else {
        None
    }
}

/// Whether a method has this name.
fn is_method(method: &Method, name: &[u8]) -> bool
    ensures { result ≡ bytes_eq method.now name.now }
{
    method.as_str().as_bytes() == name
}
