//! The variables by their numbers.

ghost use Rattle.std.specs.Prelude.{◌≡◌, IfSome, IsNone};
ghost use Rattle.etcs_vars.specs.declared.var.Var.{Var};
ghost use Rattle.etcs_c.specs.Fields.{var_number};

use etcs_vars::Var;
use etcs_vars::inner::COUNT;

/// The number of a variable.
pub(crate) fn var_number(var: Var) -> u32
    ensures { result ≡ var_number var }
{
    var as u32
}

/// Variables by their names in code.
macro_rules! variables {
    ($($var:ident)*) => { [$(Var::$var),*] };
}

/// All of them, each at the place that its number is.
#[rattlefmt::skip]
static ALL: [Var; COUNT] = variables! {
    Q_UPDOWN M_VERSION_HEADER Q_MEDIA N_PIG N_TOTAL M_DUP M_MCOUNT NID_C NID_BG Q_LINK NID_PACKET Q_DIR L_PACKET Q_SCALE
    N_ITER NID_VBCMK D_LINK Q_NEWCOUNTRY Q_LINKORIENTATION Q_LINKREACTION Q_LOCACC V_MAIN V_LOA T_LOA L_SECTION
    Q_SECTIONTIMER T_SECTIONTIMER D_SECTIONTIMERSTOPLOC L_ENDSECTION Q_ENDTIMER T_ENDTIMER D_ENDTIMERSTARTLOC
    Q_DANGERPOINT D_DP V_RELEASEDP Q_OVERLAP D_STARTOL T_OL D_OL V_RELEASEOL D_GRADIENT Q_GDIR G_A G_TSR D_STATIC
    V_STATIC Q_FRONT Q_DIFF NC_CDDIFF NC_DIFF V_DIFF D_LEVELTR M_LEVELTR NID_NTC L_ACKLEVELTR Q_RBC NID_RBC NID_RADIO
    Q_SLEEPSESSION NID_MN NID_TSR D_TSR L_TSR V_TSR Q_TEXTCLASS Q_TEXTDISPLAY D_TEXTDISPLAY M_MODETEXTDISPLAY
    M_LEVELTEXTDISPLAY L_TEXTDISPLAY T_TEXTDISPLAY Q_TEXTCONFIRM Q_CONFTEXTDISPLAY Q_TEXTREPORT NID_TEXTMESSAGE L_TEXT
    X_TEXT Q_TEXT Q_ASPECT Q_SRSTOP NID_OPERATIONAL M_VERSION NID_MESSAGE L_MESSAGE T_TRAIN M_ACK NID_LRBG D_SR NID_EM
    D_REF Q_ORIENTATION T_MAR T_TIMEOUTRQST T_CYCRQST T_CYCLOC D_CYCLOC M_LOC D_LOC Q_LGTLOC Q_TRACKINIT D_TRACKINIT
    D_TRACKCOND L_TRACKCOND M_TRACKCOND D_MAMODE M_MAMODE V_MAMODE L_MAMODE L_ACKMAMODE Q_MAMODE D_RBCTR NID_ENGINE
    Q_STATUS NID_PRVLRBG M_ERROR D_LRBG Q_DIRLRBG Q_DLRBG L_DOUBTOVER L_DOUBTUNDER Q_LENGTH L_TRAININT V_TRAIN
    Q_DIRTRAIN M_MODE M_LEVEL FILL OTHER_DATA PADDING PAD
};

/// The variable of this number, if there is one.
pub(crate) fn var_of(number: u32) -> Option<Var>
    ensures some { IfSome result (λ var. var_number var ≡ number) }
    ensures none { IsNone result → (var : Var) → var_number var ≡ number → ⊥ }
{
    let var = *ALL.get(number as usize)?;
    if var_number(var) == number {
        Some(var)
    } else {
        None
    }
}
