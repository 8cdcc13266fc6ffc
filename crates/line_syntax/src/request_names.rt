// Requests by their names.
ghost use Rattle.std.specs.Prelude.{◌≡◌};
ghost use Rattle.rules.specs.Requests.{request_of};

use rules::{Breaking, LineSetting, Name, PageSetting, Request, TableChange};

// The request of a name, if it has one.
#[tactic(auto, unfolding(rules::specs::Requests::request_of, rules::specs::Bytes::first_where))]
pub fn request_of(name: Name) -> Option<Request>
    ensures { result ≡ request_of name }
{
    let request = match &[name.first, name.second] {
        b"br" => Request::Breaks(Breaking::Br),
        b"sp" => Request::Breaks(Breaking::Sp),
        b"bp" => Request::Breaks(Breaking::Bp),
        b"pl" => Request::Lays(PageSetting::Pl),
        b"po" => Request::Lays(PageSetting::Po),
        b"ll" => Request::Lays(PageSetting::Ll),
        b"in" => Request::Breaks(Breaking::Sets(LineSetting::In)),
        b"ti" => Request::Breaks(Breaking::Sets(LineSetting::Ti)),
        b"fi" => Request::Breaks(Breaking::Sets(LineSetting::Fi)),
        b"nf" => Request::Breaks(Breaking::Sets(LineSetting::Nf)),
        b"ad" => Request::Lays(PageSetting::Ad),
        b"na" => Request::Lays(PageSetting::Na),
        b"ce" => Request::Breaks(Breaking::Sets(LineSetting::Ce)),
        b"nr" => Request::Changes(TableChange::Nr),
        b"ds" => Request::Ds,
        b"de" => Request::Changes(TableChange::De),
        b"rm" => Request::Changes(TableChange::Rm),
        b"wh" => Request::Changes(TableChange::Wh),
        b"if" => Request::If,
        _ => return None,
    };
    Some(request)
}
